// What the kinds have in common whose data lie in one fixed layout: decoding, and the last step of every encoding.
#![tactic(auto)]

ghost use Rattle.std.specs.Prelude.{◌≡◌, ◌*◌, ◌<◌, ◌≤◌, ℕ, List, [], Result, true, cond, ltb, length, get_or};
ghost use Rattle.refusals.specs.Numbers.{numbered};
ghost use Rattle.octets.specs.Delivery.{written};
ghost use Rattle.octets.specs.Placing.{fits};
ghost use Rattle.encoding.specs.Encoding.{encoded_of, encoded_into, decoded_as};
ghost use Rattle.encoding.specs.Entries.{Series, Long, entries_in, entries_into};

use refusals::Refusal;
use std::array;

// The fields of a kind of message, from its data and as its data.
pub trait Fields: Copy {
    // The identifier of the kind, the fields that data has, and the data of fields.
    ghost ID: { ℕ };

    ghost fields_of: { List ℕ → Self };

    ghost data_of: { Self → List ℕ };

    const ID: u8;

    // The fields of any data. What is past its end reads as 0.
    fn read(body: &[u8]) -> Self
        ensures { result ≡ fields_of body.now };

    // Puts the data of the fields at the buffer's start, and answers its length. Fields out of range are refused as their data would be.
    fn encode(self, buf: &mut [u8]) -> Result<usize, Refusal>
        ensures { (written result ≡ encoded_of ID (data_of self) buf.old)
            × (buf.new ≡ encoded_into ID (data_of self) buf.old) };
}

// A kind that has a definition of what decoding answers. By the law `decode` answers just that: so the identifier is the kind's own.
pub trait Decoded: Fields {
    ghost decoded_of: { List ℕ → Result Self ℕ };

    ghost decodes: { (d : List ℕ) → decoded_of d ≡ decoded_as Self.Fields.ID Self.Fields.fields_of d };
}

// The fields of a kind's data, where it is acceptable.
pub fn decode<F: Fields>(body: &[u8]) -> Result<F, Refusal>
    ensures { numbered result ≡ decoded_as F.ID F.fields_of body.now }
{
    kinds::content(F::ID, body)?;
    Ok(F::read(body))
}

// Judges the data of a message and, where it is acceptable and the buffer is long enough, copies it to the buffer's start.
pub fn deliver(id: u8, body: &[u8], buf: &mut [u8]) -> Result<usize, Refusal>
    ensures { (written result ≡ encoded_of id body.now buf.old)
        × (buf.new ≡ encoded_into id body.now buf.old) }
{
    let judged = kinds::content(id, body);
    octets::deliver(judged, body, buf)
}

// An entry of a kind whose data hold entries of one width.
pub trait Entry<const WIDTH: usize>: Copy {
    // How the entries of the kind lie, and what stands where there is none.
    ghost series: { Series Self };

    ghost BLANK: { Self };

    const BLANK: Self;

    fn from_bytes(bytes: &[u8; WIDTH]) -> Self
        ensures { result ≡ series.entry_of bytes.now };

    fn to_bytes(self) -> [u8; WIDTH]
        ensures { result ≡ series.entry_data self };

    // The width is the array's, and that of no longer data than a message may have.
    ghost wide: { (series.width ≡ WIDTH) × (0 < WIDTH) × (WIDTH ≤ 1024) };

    ghost empty: { series.blank ≡ BLANK };
}

// The entries that the bytes hold, as many as there is room for; blank ones past them.
pub fn read_entries<E: Entry<WIDTH>, const WIDTH: usize, const MOST: usize>(
    bytes: &[u8],
) -> [E; MOST]
    ensures { result ≡ entries_in E.series MOST bytes.now }
{
    let (all, _) = bytes.as_chunks::<WIDTH>();
    array::from_fn(
        |i|
            ensures value { result ≡ cond (ltb i (length all.entry.now)) (E.series.entry_of (get_or all.entry.now i [])) E.series.blank }
            ensures stays { all.exit ≡ all.entry }
        {
            match all.get(i) {
                Some(bytes) => E::from_bytes(bytes),
                None => E::BLANK,
            }
        },
    )
}

// Puts the bytes of the entries at the buffer's start, and says whether they are within it. Where not, nothing is written.
// The second clause is what a caller has to know of entries that hold an array.
pub fn lay_out<E: Entry<WIDTH>, const WIDTH: usize>(entries: &[E], buf: &mut [u8]) -> bool
    ensures value { (result ≡ fits buf.old 0 (WIDTH * length entries.now)) × (buf.new ≡ entries_into E.series entries.now buf.old) }
    ensures long { result ≡ true → Long E.series entries.now (length entries.now) }
{
    if buf.len() / WIDTH < entries.len() {
        return false;
    }
    for (i, entry) in entries.iter().enumerate() {
        octets::put(&entry.to_bytes(), buf, WIDTH * i);
    }
    true
}
