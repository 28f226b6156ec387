// The text of a listing: the line of an event and the line of the total, written into a buffer that the caller lends.
#![tactic(auto)]

ghost use Rattle.std.specs.Prelude.{◌∷◌, ◌≡◌, ◌+◌, ◌<◌, ◌≤◌, length};
ghost use Rattle.octets.specs.Placing.{placed};
ghost use Rattle.octets.specs.Delivery.{written, written_of, filled_of, Counts};
ghost use Rattle.record.specs.View.{view};
ghost use Rattle.listing.specs.Totals.{totals_of};
ghost use Rattle.listing.specs.Text.{space, decimal, hex_digit, decimals, event_line, total_line, total_of, longest_event, longest_total};

use record::{Count, Head, Reader};
use refusals::Refusal;

// The decimal digits of the largest count.
const COUNT_DIGITS: usize = 20;

// The lengths of the longest lines: of an event, and of the total.
pub const LONGEST_EVENT: usize = 2 * COUNT_DIGITS + 9;

pub const LONGEST_TOTAL: usize = 5 * COUNT_DIGITS + 11;

// The five counts of a listing's last line.
#[derive(Clone, Copy, Debug, PartialEq, Eq)]
pub struct Totals {
    pub fed: Count,
    pub accepted: Count,
    pub refused: Count,
    pub outside: Count,
    pub pending: Count,
}

// Those of a record.
impl From<Head> for Totals {
    ghost from_gives = { λ h t. t ≡ totals_of h };

    fn from(h: Head) -> Totals
        ensures { result ≡ totals_of h }
    {
        Totals {
            fed: h.fed,
            accepted: h.accepted,
            refused: h.refused,
            outside: h.outside,
            pending: h.pending,
        }
    }
}

// Puts a number in decimal at a place and returns the place after it.
fn put_decimal(n: Count, buf: &mut [u8], at: usize) -> usize
    requires { at + length (decimal n) ≤ length buf.old }
    ensures { (result ≡ at + length (decimal n)) × (buf.new ≡ placed buf.old at (decimal n)) }
{
    let mut digits = itoa::Buffer::new();
    let text = digits.format(n).as_bytes();
    octets::put(text, buf, at);
    at + text.len()
}

// Puts numbers, a space before each, and returns the place after them.
fn put_decimals(numbers: &[Count], buf: &mut [u8], at: usize) -> usize
    requires { at + length (decimals numbers.now) ≤ length buf.old }
    ensures { (result ≡ at + length (decimals numbers.now))
        × (buf.new ≡ placed buf.old at (decimals numbers.now)) }
{
    let mut to = at;
    for n in numbers {
        buf[to] = b' ';
        to = put_decimal(*n, buf, to + 1);
    }
    to
}

// A hexadecimal digit, in upper case.
fn hex_digit(n: u8) -> u8
    requires { n < 16 }
    ensures { result ≡ hex_digit n }
{
    b"0123456789ABCDEF"[usize::from(n)]
}

// Puts an event's line at the start and returns its length.
fn put_event(offset: Count, id: u8, number: u8, closed: Count, line: &mut [u8]) -> usize
    requires { longest_event ≤ length line.old }
    ensures { (result ≡ length (event_line offset id number closed))
        × (line.new ≡ placed line.old 0 (event_line offset id number closed))
        × (result ≤ longest_event) }
{
    let past_offset = put_decimal(offset, line, 0);
    octets::put(
        &[b' ', hex_digit(id / 16), hex_digit(id % 16)],
        line,
        past_offset,
    );
    let past_numbers = put_decimals(&[Count::from(number), closed], line, past_offset + 3);
    octets::put(b"\n", line, past_numbers);
    past_numbers + 1
}

// Puts the line of the five counts at the start and returns its length.
fn put_total(t: Totals, line: &mut [u8]) -> usize
    requires { longest_total ≤ length line.old }
    ensures { (result ≡ length (total_line t.fed t.accepted t.refused t.outside t.pending))
        × (line.new ≡ placed line.old 0 (total_line t.fed t.accepted t.refused t.outside t.pending))
        × (result ≤ longest_total) }
{
    octets::put(b"total", line, 0);
    let numbers = [t.fed, t.accepted, t.refused, t.outside, t.pending];
    let past_numbers = put_decimals(&numbers, line, 5);
    octets::put(b"\n", line, past_numbers);
    past_numbers + 1
}

// Writes the line of an event: the offset of the byte that raised it, its identifier, its number, 0 of a message, and the bytes closed.
pub fn event_line(
    offset: Count,
    id: u8,
    number: u8,
    closed: Count,
    buf: &mut [u8],
) -> Result<usize, Refusal>
    ensures value { (written result ≡ written_of 0 (event_line offset id number closed) buf.old)
        × (buf.new ≡ filled_of 0 (event_line offset id number closed) buf.old) }
    ensures longest { length (event_line offset id number closed) ≤ longest_event }
{
    if LONGEST_EVENT <= buf.len() {
        return Ok(put_event(offset, id, number, closed, buf));
    }
    let mut line = [0u8; LONGEST_EVENT];
    let n = put_event(offset, id, number, closed, &mut line);
    octets::deliver(Ok(()), &line[..n], buf)
}

// Writes the line of the five counts.
pub fn total_line(t: Totals, buf: &mut [u8]) -> Result<usize, Refusal>
    ensures value { (written result ≡ written_of 0 (total_line t.fed t.accepted t.refused t.outside t.pending) buf.old)
        × (buf.new ≡ filled_of 0 (total_line t.fed t.accepted t.refused t.outside t.pending) buf.old) }
    ensures longest { length (total_line t.fed t.accepted t.refused t.outside t.pending) ≤ longest_total }
{
    if LONGEST_TOTAL <= buf.len() {
        return Ok(put_total(t, buf));
    }
    let mut line = [0u8; LONGEST_TOTAL];
    let n = put_total(t, &mut line);
    octets::deliver(Ok(()), &line[..n], buf)
}

// Writes the line of a reader's five counts.
pub fn list_total(r: Reader, buf: &mut [u8]) -> Result<usize, Refusal>
    ensures value { (written result ≡ written_of 0 (total_of (view r)) buf.old) × (buf.new ≡ filled_of 0 (total_of (view r)) buf.old) }
    ensures counts { Counts (written result).length buf.new × (length (total_of (view r)) ≤ longest_total) }
{
    total_line(Totals::from(r.head), buf)
}
