// The kinds of no byte, and those of one byte or none, as fields and as data. Encoding puts the data into a lent buffer, or refuses and
// leaves the buffer as it is.
#![tactic(auto)]

ghost use Rattle.std.specs.Prelude.{[], ◌≡◌};
ghost use Rattle.refusals.specs.Numbers.{code, numbered};
ghost use Rattle.octets.specs.Delivery.{written, written_of, filled_of};
ghost use Rattle.fields_byte.specs.Fields.{empty_kind, one_byte_kind, family_refusal, empty_refusal, decoded_empty_of};
ghost use Rattle.fields_byte.specs.Fields.{data_of, decoded_of, refusal_of};

use refusals::Refusal;

// 21h, 24h, 27h, 2Ah, 1Fh, F4h: a byte, if the count is 1.
#[derive(Clone, Copy, Debug, PartialEq, Eq)]
pub struct OneByte {
    pub count: usize,
    pub value: u8,
}

// The kinds without data.
fn empty_kind(id: u8) -> bool
    ensures { result ≡ empty_kind id }
{
    matches!(id, 0x1B | 0x1E | 0x26 | 0x54)
}

// The kinds of one byte or none.
fn one_byte_kind(id: u8) -> bool
    ensures { result ≡ one_byte_kind id }
{
    matches!(id, 0x21 | 0x24 | 0x27 | 0x2A | 0x1F | 0xF4)
}

// Why data is refused, if it is, by whether the identifier is inside the family.
fn judge(inside: bool, id: u8, body: &[u8]) -> Result<(), Refusal>
    ensures { code result ≡ family_refusal inside id body.now }
{
    if inside {
        kinds::content(id, body)
    } else {
        Err(Refusal::Unlisted)
    }
}

// Whether data of a kind without data is acceptable.
pub fn decode_empty(id: u8, body: &[u8]) -> Result<(), Refusal>
    ensures { numbered result ≡ decoded_empty_of id body.now }
{
    judge(empty_kind(id), id, body)
}

// Writes no byte: the answer is the length 0, or the refusal.
pub fn encode_empty(id: u8, buf: &mut [u8]) -> Result<usize, Refusal>
    ensures { (written result ≡ written_of (empty_refusal id) [] buf.old)
        × (buf.new ≡ filled_of (empty_refusal id) [] buf.old) }
{
    let judged = judge(empty_kind(id), id, &[]);
    octets::deliver(judged, &[], buf)
}

// The fields of a kind of one byte or none. Without the byte the value is 0.
pub fn decode_one_byte(id: u8, body: &[u8]) -> Result<OneByte, Refusal>
    ensures { numbered result ≡ decoded_of id body.now }
{
    judge(one_byte_kind(id), id, body)?;
    Ok(OneByte {
        count: body.len(),
        value: octets::byte_at(body, 0),
    })
}

// The data of a kind of one byte or none. The value is ignored where the count is 0.
pub fn encode_one_byte(id: u8, f: OneByte, buf: &mut [u8]) -> Result<usize, Refusal>
    ensures { (written result ≡ written_of (refusal_of id f) (data_of f) buf.old)
        × (buf.new ≡ filled_of (refusal_of id f) (data_of f) buf.old) }
{
    if !one_byte_kind(id) {
        return Err(Refusal::Unlisted);
    }
    if 1 < f.count {
        return Err(Refusal::Length);
    }
    encoding::deliver(id, &[f.value][..f.count], buf)
}
