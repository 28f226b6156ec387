// Bytes: reading one, writing some into a lent buffer, and what every call answers that writes.
#![tactic(auto)]

ghost use Rattle.std.specs.Prelude.{◌≡◌, ◌+◌, leb, length};
ghost use Rattle.refusals.specs.Numbers.{code};
ghost use Rattle.octets.specs.Bytes.{byte};
ghost use Rattle.octets.specs.Placing.{fits, placed};
ghost use Rattle.octets.specs.Delivery.{written, written_of, filled_of};

use refusals::Refusal;

// Whether n places from `at` on are within `len`; by a difference, since the sum could wrap.
pub fn within(len: usize, at: usize, n: usize) -> bool
    ensures { result ≡ leb (at + n) len }
{
    if len < at {
        return false;
    }
    n <= len - at
}

// The byte at a place; 0 past the end.
pub fn byte_at(s: &[u8], at: usize) -> u8
    ensures { result ≡ byte s.now at }
{
    s.get(at).copied().unwrap_or(0)
}

// Puts these bytes into the buffer from `at` on, and says whether they are within it. Where not, nothing is written.
pub fn put(src: &[u8], buf: &mut [u8], at: usize) -> bool
    ensures { (result ≡ fits buf.old at (length src.now))
        × (buf.new ≡ placed buf.old at src.now) }
{
    if !within(buf.len(), at, src.len()) {
        return false;
    }
    buf[at..at + src.len()].copy_from_slice(src);
    true
}

// Refused as judged before; else 13 where the buffer is too short; else the text is copied to the buffer's start, and its length answered.
pub fn deliver(judged: Result<(), Refusal>, text: &[u8], buf: &mut [u8]) -> Result<usize, Refusal>
    ensures { (written result ≡ written_of (code judged) text.now buf.old)
        × (buf.new ≡ filled_of (code judged) text.now buf.old) }
{
    judged?;
    let n = text.len();
    if buf.len() < n {
        return Err(Refusal::Buffer);
    }
    buf[..n].copy_from_slice(text);
    Ok(n)
}
