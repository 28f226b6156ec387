// The latest message of each kind that is kept (the paper's standing readings): whether they are acceptable, and storing one.
#![tactic(auto)]

ghost use Rattle.std.specs.Prelude.{◌≡◌, ◌≢◌, List, ℕ, None, cond, take, eqb, length};
ghost use Rattle.std.specs.Option.{option_copied};
ghost use Rattle.std.proofs.Math.Option.{some};
ghost use Rattle.kinds.specs.Kinds.{table, row_in, in_range, content};
ghost use Rattle.line.specs.Record.{Kept, id_of, Fit};
ghost use Rattle.octets.specs.Deciding.{Decides};
ghost use Rattle.latest.specs.Latest.{latest_of, perhaps, LatestOk, stored_of};

use kinds::{LENGTH_4A, LENGTH_4B, LENGTH_43, LENGTH_46, LENGTH_EB};

// The data of the latest message of each kind that is kept, if there is one.
#[derive(Clone, Copy, Debug, PartialEq, Eq)]
pub struct Latest {
    pub d43: Option<[u8; LENGTH_43]>,
    pub d46: Option<[u8; LENGTH_46]>,
    pub d4a: Option<[u8; LENGTH_4A]>,
    pub d4b: Option<[u8; LENGTH_4B]>,
    pub deb: Option<[u8; LENGTH_EB]>,
}

// A kind's latest message as a slice.
fn lent<const N: usize>(latest: &Option<[u8; N]>) -> Option<&[u8]>
    ensures { option_copied result ≡ latest.now }
{
    latest.as_ref().map(<[u8; N]>::as_slice)
}

impl Latest {
    // The data of the latest message of a kind, if there is one.
    pub fn data(&self, id: u8) -> Option<&[u8]>
        ensures kept { (k : Kept) → id ≡ id_of k → perhaps (option_copied result) ≡ latest_of self.now k }
        ensures other { ((k : Kept) → id ≢ id_of k) → result ≡ None }
    {
        match id {
            0x43 => lent(&self.d43),
            0x46 => lent(&self.d46),
            0x4A => lent(&self.d4a),
            0x4B => lent(&self.d4b),
            0xEB => lent(&self.deb),
            _ => None,
        }
    }
}

// Whether the latest message of a kind, if any, is acceptable: its length is the array's, so that its ranges decide. Any 33 or 42 bytes
// are an acceptable 4Ah or 4Bh.
fn fits<const N: usize>(id: u8, latest: Option<[u8; N]>) -> bool
    requires { (d : List ℕ) → length d ≡ N → in_range (row_in table id) d ≡ eqb (content id d) 0 }
    ensures { Decides (Fit id (perhaps latest.entry)) result }
{
    match latest {
        Some(d) => kinds::in_range(id, &d),
        None => true,
    }
}

// Whether each is acceptable.
#[tactic(auto, using(kinds::proofs::OnlyLaws::ranged_43, kinds::proofs::OnlyLaws::ranged_46, kinds::proofs::OnlyLaws::ranged_eb))]
pub fn acceptable(l: Latest) -> bool
    ensures { Decides (LatestOk l) result }
{
    fits(0x43, l.d43) && fits(0x46, l.d46) && fits(0xEB, l.deb)
}

// A kind's latest message, once one of its kind is given: the data, or the one before where the kind can't have them.
fn newer<const N: usize>(before: Option<[u8; N]>, d: &[u8]) -> Option<[u8; N]>
    ensures { perhaps result ≡ cond (eqb (length d.now) N) (some d.now) (perhaps before.entry) }
{
    <[u8; N]>::try_from(d).ok().or(before)
}

// The latest messages, once a message is given, whose data are the first `len` bytes. Data that the kind can't have are not stored.
pub fn store(l: Latest, id: u8, d: &[u8], len: usize) -> Latest
    ensures { (i : Kept) → latest_of result i ≡ stored_of id (take len d.now) (latest_of l) i }
{
    let mut n = l;
    let d = &d[..len.min(d.len())];
    match id {
        0x43 => n.d43 = newer(n.d43, d),
        0x46 => n.d46 = newer(n.d46, d),
        0x4A => n.d4a = newer(n.d4a, d),
        0x4B => n.d4b = newer(n.d4b, d),
        0xEB => n.deb = newer(n.deb, d),
        _ => {}
    }
    n
}
