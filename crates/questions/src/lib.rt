// Questions 1 to 3: whether a call can use a record.
#![tactic(auto)]

ghost use Rattle.std.specs.Prelude.{◌≡◌, ◌+◌, ◌≤◌, length, take};
ghost use Rattle.refusals.specs.Numbers.{code};
ghost use Rattle.stuffing.specs.Stuffing.{dles};
ghost use Rattle.octets.specs.Deciding.{Decides};
ghost use Rattle.record.specs.View.{record_of};
ghost use Rattle.questions.specs.Question.{Usable, Opened, Plausible, Questions};

use latest::Latest;
use record::{Count, Head, Reader};
use refusals::Refusal;

// Question 2, by its clauses.

// An identifier that is no service code.
fn usable(id: u8) -> bool
    ensures { Decides (Usable id) result }
{
    !matches!(id, Reader::ETX | Reader::DLE | Reader::SUM)
}

// An open frame's place, identifier and length.
fn open(h: Head) -> bool
    ensures { Decides (Opened h) result }
{
    let places = if h.mode == 0 {
        Reader::C0
    } else {
        Reader::PLACES
    };
    h.place < places && h.len <= Reader::CAPACITY && usable(h.id)
}

// Whether fed is the sum of the other four counts: by differences, since the sum may be wider than each.
fn balanced(h: Head) -> bool
    ensures { Decides (h.fed ≡ h.accepted + h.refused + h.outside + h.pending) result }
{
    let Some(rest) = h.fed.checked_sub(h.accepted) else {
        return false;
    };
    let Some(open) = rest.checked_sub(h.refused) else {
        return false;
    };
    open.checked_sub(h.outside) == Some(h.pending)
}

// The pending bytes of an open frame: its place, its data and each DLE among them once more.
fn pending_of(h: Head, d: &[u8]) -> usize
    requires { (h.len ≤ 1024) × (length d.now ≡ 1024) }
    ensures { result ≡ h.place + (h.len + dles (take h.len d.now)) }
{
    h.place as usize + (h.len + stuffing::count_dle(&d[..h.len]))
}

// Question 2, but for the pending bytes of an open frame.
fn plausible(h: Head, l: Latest) -> bool
    ensures { Decides (Plausible h l) result }
{
    if !balanced(h) || !latest::acceptable(l) {
        return false;
    }
    if h.place < Reader::F {
        h.pending == Count::from(h.place)
    } else {
        open(h)
    }
}

// Questions 1 to 3, in order, of a call that offers n bytes to a record of these parts: the first that says no refuses it.
// An array that is not 1,024 bytes long is no record's: 2.
pub fn question(h: Head, l: Latest, d: &[u8], n: usize) -> Result<(), Refusal>
    ensures { Questions (record_of h l d.now) n (code result) }
{
    if 2 <= h.mode {
        return Err(Refusal::Mode);
    }
    if d.len() != Reader::CAPACITY {
        return Err(Refusal::Record);
    }
    if !plausible(h, l) {
        return Err(Refusal::Record);
    }
    if Reader::F <= h.place {
        if h.pending as usize != pending_of(h, d) {
            return Err(Refusal::Record);
        }
    }
    if h.fed >= Reader::LIMIT {
        if 0 < n {
            return Err(Refusal::Full);
        }
    }
    Ok(())
}
