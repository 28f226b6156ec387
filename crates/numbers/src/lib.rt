// Numbers in bytes, low byte first.
// Signed numbers: the bits that stand for them in two's complement, and back.
// The types of the sources' tables that take one byte, read at an offset.
#![tactic(auto)]

ghost use Rattle.std.specs.Prelude.{◌≡◌};
ghost use Rattle.numbers.specs.Types.{int8u_at, int8s_at};
ghost use Rattle.numbers.specs.Signed.{int8, int16, unsigned};
ghost use Rattle.numbers.specs.Number.{number_of, number_at};

// The N bytes from `at` on; zeros where there are fewer.
fn bytes_at<const N: usize>(s: &[u8], at: usize) -> [u8; N]
    ensures { number_of result ≡ number_at s.now at N }
{
    if let Some(rest) = s.get(at..)
        && let Some(bytes) = rest.first_chunk()
    {
        return *bytes;
    }
    [0; N]
}

// The number in the two, four or eight bytes from `at` on; 0 where there are fewer.
pub fn u16_at(s: &[u8], at: usize) -> u16
    ensures { result ≡ number_at s.now at 2 }
{
    u16::from_le_bytes(bytes_at(s, at))
}

pub fn u32_at(s: &[u8], at: usize) -> u32
    ensures { result ≡ number_at s.now at 4 }
{
    u32::from_le_bytes(bytes_at(s, at))
}

pub fn u64_at(s: &[u8], at: usize) -> u64
    ensures { result ≡ number_at s.now at 8 }
{
    u64::from_le_bytes(bytes_at(s, at))
}

// The number that a byte stands for in two's complement.
pub fn int8_of(b: u8) -> i8
    ensures { result ≡ int8 b }
{
    b.cast_signed()
}

// The same for two bytes.
pub fn int16_of(v: u16) -> i16
    ensures { result ≡ int16 v }
{
    v.cast_signed()
}

// The byte that stands for a signed number.
pub fn int8_byte(z: i8) -> u8
    ensures { result ≡ unsigned 8 z }
{
    i8::cast_unsigned(z)
}

// The same for two bytes.
pub fn int16_word(z: i16) -> u16
    ensures { result ≡ unsigned 16 z }
{
    i16::cast_unsigned(z)
}

// Past the end of the data they are 0.
pub fn int8u_at(body: &[u8], at: usize) -> u8
    ensures { result ≡ int8u_at body.now at }
{
    octets::byte_at(body, at)
}

pub fn int8s_at(body: &[u8], at: usize) -> i8
    ensures { result ≡ int8s_at body.now at }
{
    int8_of(int8u_at(body, at))
}
