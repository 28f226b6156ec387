// The kinds of message, and which messages are acceptable: document 01's questions 10 to 12.
#![tactic(auto)]

mod table; // questions 10 and 11: the twenty-one kinds and their lengths

ghost use Rattle.std.specs.Prelude.{◌≡◌, ◌==◌, ◌&&◌, ◌%◌, ◌/◌, eqb, leb};
ghost use Rattle.std.specs.List.{find};
ghost use Rattle.refusals.specs.Numbers.{code};
ghost use Rattle.kinds.specs.Kinds.{table, row_in, listed, allows, chosen_49, length_ok, in_range, content};

use refusals::Refusal;

// The lengths that a kind allows: one or the other, or those of a header and up to `most` entries of `width` bytes.
#[derive(Clone, Copy)]
pub enum Lengths {
    OneOf(usize, usize),
    Entries {
        header: usize,
        width: usize,
        most: usize,
    },
}

// A kind of message: its identifier and its lengths.
#[derive(Clone, Copy)]
pub struct Kind {
    pub id: u8,
    pub lengths: Lengths,
}

// The lengths of the kinds whose latest message a reader keeps. They are the table's.
pub const LENGTH_43: usize = 6;

pub const LENGTH_46: usize = 10;

pub const LENGTH_4A: usize = 33;

pub const LENGTH_4B: usize = 42;

pub const LENGTH_EB: usize = 26;

// The kind of an identifier in a table.
fn find_in(kinds: &[Kind], id: u8) -> Option<Kind>
    ensures { result ≡ find (λ (k : Kind). k.id == id) kinds.now }
{
    kinds.iter().copied().find(|kind| kind.id == id)
}

// Question 10: the kind of an identifier, if it is listed.
fn find_kind(id: u8) -> Option<Kind>
    ensures { result ≡ listed (row_in table id) }
{
    find_in(&table::KINDS, id)
}

// Whether as many bytes are entries of this width, and at most so many.
fn are_entries(n: usize, width: usize, most: usize) -> bool
    ensures { result ≡ (eqb (n % width) 0 && leb (n / width) most) }
{
    n.is_multiple_of(width) && n <= width.saturating_mul(most)
}

// Whether a kind allows a length.
#[tactic(auto, unfolding(crate::specs::Kinds::allows))]
fn allows_length(k: Kind, n: usize) -> bool
    ensures { result ≡ allows k n }
{
    match k.lengths {
        Lengths::OneOf(short, long) => n == short || n == long,
        Lengths::Entries {
            header,
            width,
            most,
        } => header <= n && are_entries(n - header, width, most),
    }
}

// 49h: the first byte chooses between the two lengths.
fn chosen_49(first: u8, n: usize) -> bool
    ensures { result ≡ chosen_49 first n }
{
    match first {
        1 => n == 130,
        2 => n == 93,
        _ => true,
    }
}

// Question 11: whether the length is allowed.
fn length_ok(k: Kind, body: &[u8]) -> bool
    ensures { result ≡ length_ok k body.now }
{
    let allowed = allows_length(k, body.len());
    if k.id == 0x49 {
        return allowed & chosen_49(octets::byte_at(body, 0), body.len());
    }
    allowed
}

// Question 12: whether all fields are in range. A kind that is not listed has no ranges.
pub fn in_range(id: u8, body: &[u8]) -> bool
    ensures { result ≡ in_range (row_in table id) body.now }
{
    match id {
        0x1F => ranges::in_1f(body),
        0x20 => ranges::in_20(body),
        0x23 => ranges::in_23(body),
        0x43 => ranges::in_43(body),
        0x46 => ranges::in_46(body),
        0x47 => ranges::in_47(body),
        0x49 => ranges::in_49(body),
        0xEB => ranges::in_eb(body),
        0x52 => ranges::in_52(body),
        _ => true,
    }
}

// Questions 10 to 12, in order: the first that says no refuses.
pub fn content(id: u8, body: &[u8]) -> Result<(), Refusal>
    ensures { code result ≡ content id body.now }
{
    let Some(kind) = find_kind(id) else {
        return Err(Refusal::Unlisted);
    };
    if !length_ok(kind, body) {
        return Err(Refusal::Length);
    }
    if !in_range(id, body) {
        return Err(Refusal::Range);
    }
    Ok(())
}
