// The frame of a message, written into a buffer that the caller lends.
#![tactic(auto)]

ghost use Rattle.std.specs.Prelude.{◌≡◌, ◌∷◌, [], ℕ, ◌+◌, ◌≤◌, length};
ghost use Rattle.stuffing.specs.Stuffing.{stuffed};
ghost use Rattle.octets.specs.Placing.{placed};
ghost use Rattle.octets.specs.Delivery.{written};
ghost use Rattle.line.specs.Frame.{mode_of, sum_field, frame};
ghost use Rattle.writer.specs.Writing.{length_on_line, frame_written, frame_filled};

use record::Reader;
use refusals::Refusal;

// The length of the frame of a message with this data, which is the same whatever its identifier; 0 of a mode above 1, and of more data
// than a frame holds.
pub fn frame_length(mode: u8, body: &[u8]) -> usize
    ensures { (id : ℕ) → result ≡ length_on_line mode id body.now }
{
    if 1 < mode || Reader::CAPACITY < body.len() {
        return 0;
    }
    let n = body.len() + stuffing::count_dle(body);
    if mode == 0 { n + 4 } else { n + 8 }
}

// Puts a byte of data at a place, a DLE twice, and returns the place after it.
fn put_byte(b: u8, buf: &mut [u8], at: usize) -> usize
    requires { at + length (stuffed (b ∷ [])) ≤ length buf.old }
    ensures { (result ≡ at + length (stuffed (b ∷ []))) × (buf.new ≡ placed buf.old at (stuffed (b ∷ []))) }
{
    buf[at] = b;
    if b == Reader::DLE {
        buf[at + 1] = b;
        at + 2
    } else {
        at + 1
    }
}

// Puts the data, stuffed, from a place on and returns the place after it.
fn put_data(body: &[u8], buf: &mut [u8], at: usize) -> usize
    requires { at + length (stuffed body.now) ≤ length buf.old }
    ensures { (result ≡ at + length (stuffed body.now))
        × (buf.new ≡ placed buf.old at (stuffed body.now)) }
{
    let mut to = at;
    for b in body {
        to = put_byte(*b, buf, to);
    }
    to
}

// Puts what a mode has between data and end, in mode 1 the checksum, and returns the place after it.
fn put_sum(mode: u8, id: u8, body: &[u8], buf: &mut [u8], at: usize) -> usize
    requires { at + length (sum_field (mode_of mode) id body.now) ≤ length buf.old }
    ensures { (result ≡ at + length (sum_field (mode_of mode) id body.now))
        × (buf.new ≡ placed buf.old at (sum_field (mode_of mode) id body.now)) }
{
    if mode == 0 {
        return at;
    }
    let sum = checksum::sum_bytes(id, body);
    octets::put(&[Reader::DLE, Reader::SUM, sum.c1, sum.c2], buf, at);
    at + 4
}

// Puts the frame at the start of a buffer that is long enough.
fn fill(mode: u8, id: u8, body: &[u8], buf: &mut [u8])
    requires { length (frame (mode_of mode) id body.now) ≤ length buf.old }
    ensures { buf.new ≡ placed buf.old 0 (frame (mode_of mode) id body.now) }
{
    octets::put(&[Reader::DLE, id], buf, 0);
    let past_data = put_data(body, buf, 2);
    let past_sum = put_sum(mode, id, body, buf, past_data);
    octets::put(&[Reader::DLE, Reader::ETX], buf, past_sum);
}

// Writes the frame of a message into the buffer, or says why not.
pub fn write(mode: u8, id: u8, body: &[u8], buf: &mut [u8]) -> Result<usize, Refusal>
    ensures { (written result ≡ frame_written mode id body.now buf.old)
        × (buf.new ≡ frame_filled mode id body.now buf.old) }
{
    if 1 < mode {
        return Err(Refusal::Mode);
    }
    kinds::content(id, body)?;
    let n = frame_length(mode, body);
    if buf.len() < n {
        return Err(Refusal::Buffer);
    }
    fill(mode, id, body, buf);
    Ok(n)
}
