// The listing of bytes: a line for each event that the reader's slice call raises, part by part or whole, and how many there are.
#![tactic(auto)]

ghost use Rattle.std.specs.Prelude.{true, cond, ◌≡◌, ◌≤◌, ltb, length};
ghost use Rattle.octets.specs.Placing.{placed};
ghost use Rattle.octets.specs.Delivery.{written, written_of, filled_of, Counts};
ghost use Rattle.line.specs.Record.{fresh};
ghost use Rattle.record.specs.View.{view, told};
ghost use Rattle.listing.specs.Text.{longest_event};
ghost use Rattle.lister.specs.Listing.{text, fresh_refusal, listing_of};
ghost use Rattle.lister.specs.Counting.{occurs_shown, count_of};
ghost use Rattle.lister.specs.Posts.{untaken, PartPost, CountPost, Good, line_shown, placed_if};

use listing::LONGEST_EVENT;
use record::{Count, Event, InPlace, Reader};
use refusals::Refusal;

// What a part of a listing took and wrote, and why it stopped, unless it was for want of bytes or of room.
#[derive(Clone, Copy)]
pub struct Part {
    pub reader: Reader,
    pub refusal: Option<Refusal>,
    pub taken: usize,
    pub length: usize,
}

// Before the first call: the record but for its array, and nothing taken.
fn begin(r: Reader) -> InPlace
    ensures { result ≡ untaken r }
{
    InPlace {
        head: r.head,
        latest: r.latest,
        event: Event::Nothing,
        id: 0,
        len: 0,
        closed: 0,
        taken: 0,
    }
}

// Whether there is an event, as a number.
fn raises(e: Event) -> u64
    ensures { (result ≡ occurs_shown (told e)) × (result ≤ 1) }
{
    u64::from(e != Event::Nothing)
}

// Where the bytes to offer end: there are none where the room may not hold a line.
fn offer(at: usize, n: usize, room: usize) -> usize
    ensures { result ≡ cond (ltb room longest_event) at n }
{
    if room < LONGEST_EVENT { at } else { n }
}

// Writes the line of an event, if it is one, and returns its length.
fn put_line(offset: Count, e: Event, id: u8, closed: Count, buf: &mut [u8]) -> usize
    requires { longest_event ≤ length buf.old }
    ensures { (result ≡ length (line_shown offset (told e) id closed))
        × (buf.new ≡ placed buf.old 0 (line_shown offset (told e) id closed))
        × (result ≤ length buf.old) }
{
    match e {
        Event::Nothing => 0,
        Event::Message | Event::Refusal(_) => {
            let number = refusals::why(e.refusal());
            listing::event_line(offset, id, number, closed, buf).unwrap()
        }
    }
}

// Lists bytes as long as the buffer has room for a line. A turn that takes nothing is the last: all is listed, there is no room, or
// the call is refused.
pub fn list_part(r: Reader, s: &[u8], buf: &mut [u8]) -> Part
    ensures part { PartPost r s.now buf.old result buf.new }
    ensures counts { (result.taken ≤ length s.now) × Counts result.length buf.new }
{
    let mut x = begin(r);
    let mut d = r.bytes;
    let mut at = 0;
    let mut to = 0;
    loop {
        let end = offer(at, s.len(), buf.len() - to);
        x = reader::feed_in_place(x.head, x.latest, &mut d, &s[at..end]);
        if x.taken == 0 {
            return Part {
                reader: Reader {
                    head: x.head,
                    latest: x.latest,
                    bytes: d,
                },
                refusal: x.event.refusal(),
                taken: at,
                length: to,
            };
        }
        at += x.taken;
        let offset = x.head.fed - 1;
        to += put_line(offset, x.event, x.id, x.closed, &mut buf[to..]);
    }
}

// How many events the bytes raise, up to one that can't be counted.
fn count(r: Reader, s: &[u8]) -> u64
    ensures { CountPost r s.now result }
{
    let mut x = begin(r);
    let mut d = r.bytes;
    let mut rest = s;
    let mut events = 0;
    loop {
        x = reader::feed_in_place(x.head, x.latest, &mut d, rest);
        if x.taken == 0 {
            return events;
        }
        rest = &rest[x.taken..];
        events += raises(x.event);
    }
}

// How many events the bytes raise by a fresh reader of a mode. A mode that has no reader has none.
pub fn count_events(mode: u8, s: &[u8]) -> u64
    ensures { result ≡ count_of (fresh mode) s.now }
{
    let f = Reader::fresh(mode);
    if f.refusal.is_some() {
        return 0;
    }
    count(f.reader, s)
}

// Puts bytes into the buffer, where they are to be written.
fn put_if(write: bool, src: &[u8], buf: &mut [u8], at: usize)
    ensures { buf.new ≡ placed_if write buf.old at src.now }
{
    if write {
        octets::put(src, buf, at);
    }
}

// Lists a slice part by part: its length, if the buffer has room for it; and where it is to be written, into the buffer.
fn list_parts(r: Reader, s: &[u8], buf: &mut [u8], write: bool) -> Result<usize, Refusal>
    requires { Good r × (write ≡ true → length (text (view r) s.now) ≤ length buf.old) }
    ensures { (written result ≡ written_of 0 (text (view r) s.now) buf.old)
        × (buf.new ≡ placed_if write buf.old 0 (text (view r) s.now)) }
{
    let mut g = r;
    let mut lines = [0u8; 4096];
    let mut at = 0;
    let mut to = 0;
    loop {
        let p = list_part(g, &s[at..], &mut lines);
        let n = p.length;
        if buf.len() - to < n {
            return Err(Refusal::Buffer);
        }
        put_if(write, &lines[..n], buf, to);
        to += n;
        g = p.reader;
        if p.taken == 0 {
            let m = listing::list_total(g, &mut lines).unwrap();
            if buf.len() - to < m {
                return Err(Refusal::Buffer);
            }
            put_if(write, &lines[..m], buf, to);
            return Ok(to + m);
        }
        at += p.taken;
    }
}

// Writes the listing of a slice into the buffer, or says why not. It is measured first: a buffer without room stays as it was.
pub fn list(mode: u8, s: &[u8], buf: &mut [u8]) -> Result<usize, Refusal>
    ensures { (written result ≡ written_of (fresh_refusal (fresh mode)) (listing_of (fresh mode) s.now) buf.old)
        × (buf.new ≡ filled_of (fresh_refusal (fresh mode)) (listing_of (fresh mode) s.now) buf.old) }
{
    let f = Reader::fresh(mode);
    if let Some(refusal) = f.refusal {
        return Err(refusal);
    }
    list_parts(f.reader, s, buf, false)?;
    list_parts(f.reader, s, buf, true)
}
