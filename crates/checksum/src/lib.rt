// The checksum of a frame. A register of 16 bits takes each byte at the top; the eight shifts by which a byte leaves it again are one entry
// of a table.
#![tactic(auto)]

mod table; // what each byte alone leaves

ghost use Rattle.std.specs.Prelude.{◌≡◌, ℕ, ◌*◌, List, ◌∷◌};
ghost use Rattle.std.specs.Int.Bits.{bit_xor};
ghost use Rattle.stuffing.specs.Stuffing.{stuffed};
ghost use Rattle.checksum.specs.Checksum.{Entries, shifted_by, after_byte, after_bytes, checksum, c1_of, c2_of};

// The table; its rule is proved here, once. A constant array that is indexed by a number known only at run time is built on the stack each
// time: so a function with a loop takes it before the loop.
fn all_entries() -> [u16; 256]
    ensures { Entries result }
{
    table::TABLE
}

// The register that a byte alone leaves from 0.
pub fn entry(v: u8) -> u16
    ensures { result ≡ after_byte 0 v }
{
    all_entries()[usize::from(v)]
}

// The byte at the register's top leaves it by eight shifts, which are its entry and the rest moved up; then byte b comes in at the top.
// b is added to the rest and not to the index, so that a lookup waits for nothing but the one before it.
fn shift_in(t: &[u16; 256], reg: u16, b: u8) -> u16
    requires { Entries t.now }
    ensures { result ≡ bit_xor (shifted_by 8 reg) (b * 256) }
{
    ((reg ^ u16::from(b)) << 8) ^ t[usize::from(reg >> 8)]
}

// The same with a byte of data as the line has it: a 10h comes in twice.
fn shift_in_stuffed(t: &[u16; 256], reg: u16, b: u8) -> u16
    requires { Entries t.now }
    ensures { (d : List ℕ) → after_bytes (shifted_by 8 result) (stuffed d) ≡ after_bytes (shifted_by 8 reg) (stuffed (b ∷ d)) }
{
    let once = shift_in(t, reg, b);
    if b == stuffing::DLE {
        return shift_in(t, once, b);
    }
    once
}

// The register after one more byte.
fn after_byte(t: &[u16; 256], reg: u16, b: u8) -> u16
    requires { Entries t.now }
    ensures { result ≡ after_byte reg b }
{
    shift_in(t, reg ^ (u16::from(b) << 8), 0)
}

// The register after these bytes.
pub fn after_slice(reg: u16, s: &[u8]) -> u16
    ensures { result ≡ after_bytes reg s.now }
{
    let t = all_entries();
    let mut r = reg;
    for b in s {
        r = after_byte(&t, r, *b);
    }
    r
}

// The checksum of a message. It is over the stuffed data, and the data here is not stuffed: so a 10h counts twice. The last byte leaves
// the register when a 0 comes in.
pub fn message(id: u8, body: &[u8]) -> u16
    ensures { result ≡ checksum id body.now }
{
    let t = all_entries();
    let mut r = shift_in(&t, 0, id);
    for b in body {
        r = shift_in_stuffed(&t, r, *b);
    }
    shift_in(&t, r, 0)
}

// The two bytes of a checksum, as they stand on the line: c1 is the low one.
#[derive(Clone, Copy, Debug, PartialEq, Eq)]
pub struct SumBytes {
    pub c1: u8,
    pub c2: u8,
}

// The checksum of a message as the line has it.
pub fn sum_bytes(id: u8, body: &[u8]) -> SumBytes
    ensures { (result.c1 ≡ c1_of id body.now) × (result.c2 ≡ c2_of id body.now) }
{
    let [c1, c2] = message(id, body).to_le_bytes();
    SumBytes { c1, c2 }
}
