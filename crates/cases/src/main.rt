// Runs the cases that it reads, a line each, and prints how each call answers. A line that starts with # is printed as it is. Any
// other is hexadecimal text:
// - 02, a record, a slice: the record is fed the slice, from where each call stopped, until a call takes nothing; so an empty slice
//   comes at the end
// - 03, a record, a slice: the record takes single steps up to the first event, then the slice, then an empty slice
// - 05, a record, a slice: the record is fed the slice by one call in place
// - 06, a record with counts of 32 bits, a slice: the record is taken over, then fed the slice as in 02
// - 04, mode, identifier, room in two bytes, data: the writer fills so many bytes of a buffer of 5A
// A record is mode, place, identifier, c1, c2, then length in two bytes and the counts accepted, refused, outside, pending and fed in
// eight bytes each (in 06 in four), low byte first, two bytes of data, then the identifier of a standing reading, how many bytes it
// has, and these.
//
// A case with a record begins with the refusal of a fresh reader of its mode. Each call has a line: the event (0 nothing yet, 255 a
// message, else the refusal), identifier, bytes closed, data bytes, bytes taken (or single steps), then the record's place, fed,
// accepted, refused, outside and pending, then a message's data. In 03 and 05 a call that is refused by 1, 2 or 3 has a second line with
// the record's mode, identifier, c1, c2, length and standing readings: they are as they were. In 06 two lines come before the calls': the
// refusal of taking over, the record's place and counts; and that second line. The writer's line has its refusal, the length, and the
// buffer up to four bytes past the room. Identifiers, c1, c2 and data are in hexadecimal.
#![tactic(auto)]

use answering::{Regardless, print_answer, print_octets};
use latest::Latest;
use record::{Answer, Event, Head, Reader};
use std::io;
use takeover::{Head32, Latest32, Reader32};

fn number(e: Event) -> u8 {
    if e == Event::Message {
        return 255;
    }
    refusals::why(e.refusal())
}

// The data of each standing reading.
fn print_latest(rt: &impl Print, l: &Latest) -> io::Result<()> {
    for id in [0x43, 0x46, 0x4A, 0x4B, 0xEB] {
        let d = l.data(id).unwrap_or(&[]);
        print_octets(rt, " ", d, d.len())?;
    }
    Ok(())
}

// The parts of a record that no other line has.
fn print_parts(rt: &impl Print, r: &Reader) -> io::Result<()> {
    let h = r.head;
    print!(rt;
        " {} {:02x} {:02x} {:02x} {}",
        h.mode, h.id, h.c1, h.c2, h.len
    )?;
    print_latest(rt, &r.latest)?;
    println!(rt)
}

// The place and the counts.
fn print_counts(rt: &impl Print, h: Head) -> io::Result<()> {
    print!(rt; " {} {} {}", h.place, h.fed, h.accepted)?;
    print!(rt; " {} {} {}", h.refused, h.outside, h.pending)
}

// The answer of a call, and the record's numbers after it.
fn show(rt: &impl Print, a: &Answer, taken: usize, r: &Reader) -> io::Result<()> {
    let n = number(a.event);
    print!(rt; " {n} {:02x} {} {} {taken}", a.id, a.closed, a.len)?;
    print_counts(rt, r.head)?;
    print_octets(rt, " ", &a.bytes, a.len)?;
    println!(rt)
}

// The same, and then what a refusal by 1, 2 or 3 leaves.
fn show_left(rt: &impl Print, a: &Answer, taken: usize, r: &Reader) -> io::Result<()> {
    show(rt, a, taken, r)?;
    match number(a.event) {
        1..=3 => print_parts(rt, r),
        _ => Ok(()),
    }
}

// Feeds a slice from where each call stopped until a call takes nothing.
fn feed(rt: &impl Print, first: Reader, s: &[u8]) -> io::Result<()> {
    let mut r = first;
    let mut rest = s;
    loop {
        let fed = calls::feed(r, rest);
        show(rt, &fed.answer, fed.taken, &fed.reader)?;
        if fed.taken == 0 {
            return Ok(());
        }
        // A call that claims more than it was given is not believed.
        let Some(more) = rest.get(fed.taken..) else {
            return Ok(());
        };
        r = fed.reader;
        rest = more;
    }
}

// Feeds a slice by one call.
fn feed_once(rt: &impl Print, r: Reader, s: &[u8]) -> io::Result<()> {
    let fed = calls::feed(r, s);
    show_left(rt, &fed.answer, fed.taken, &fed.reader)
}

// Single steps up to the first event, or through the slice.
fn steps(rt: &impl Print, first: Reader, s: &[u8]) -> io::Result<()> {
    let mut r = first;
    for (i, b) in s.iter().enumerate() {
        let stepped = calls::step(r, *b);
        let taken = i + 1;
        if stepped.answer.event != Event::Nothing || taken == s.len() {
            return show_left(rt, &stepped.answer, taken, &stepped.reader);
        }
        r = stepped.reader;
    }
    Ok(())
}

fn head_of(s: &[u8]) -> Head {
    Head {
        mode: octets::byte_at(s, 1),
        place: octets::byte_at(s, 2),
        id: octets::byte_at(s, 3),
        c1: octets::byte_at(s, 4),
        c2: octets::byte_at(s, 5),
        len: usize::from(numbers::u16_at(s, 6)),
        accepted: numbers::u64_at(s, 8),
        refused: numbers::u64_at(s, 16),
        outside: numbers::u64_at(s, 24),
        pending: numbers::u64_at(s, 32),
        fed: numbers::u64_at(s, 40),
    }
}

fn head32_of(s: &[u8]) -> Head32 {
    Head32 {
        mode: octets::byte_at(s, 1),
        place: octets::byte_at(s, 2),
        id: octets::byte_at(s, 3),
        c1: octets::byte_at(s, 4),
        c2: octets::byte_at(s, 5),
        len: usize::from(numbers::u16_at(s, 6)),
        accepted: numbers::u32_at(s, 8),
        refused: numbers::u32_at(s, 12),
        outside: numbers::u32_at(s, 16),
        pending: numbers::u32_at(s, 20),
        fed: numbers::u32_at(s, 24),
    }
}

// One call in place.
fn feed_in_place(rt: &impl Print, r: Reader, s: &[u8]) -> io::Result<()> {
    let mut bytes = r.bytes;
    let x = reader::feed_in_place(r.head, r.latest, &mut bytes, s);
    let answer = Answer {
        event: x.event,
        id: x.id,
        len: x.len,
        bytes,
        closed: x.closed,
    };
    let left = Reader {
        head: x.head,
        latest: x.latest,
        bytes,
    };
    show_left(rt, &answer, x.taken, &left)
}

fn run_record(rt: &impl Print, kind: u8, r: Reader, s: &[u8]) -> io::Result<()> {
    match kind {
        5 => feed_in_place(rt, r, s),
        2 => feed(rt, r, s),
        _ => {
            steps(rt, r, s)?;
            feed_once(rt, r, s)?;
            feed_once(rt, r, &[])
        }
    }
}

// A line with a record: its head, as bytes, what is behind it, and the slice.
#[derive(Drop)]
struct Parts<'a> {
    head: &'a [u8],
    bytes: [u8; Reader::CAPACITY],
    latest: Latest,
    slice: &'a [u8],
}

// Reads it, after a head of so many bytes, and prints the refusal of a fresh reader of its mode.
fn read_parts<'a>(rt: &impl Print, s: &'a [u8], size: usize) -> io::Result<Option<Parts<'a>>> {
    let Some((head, [first, second, id, length, rest @ ..])) = s.split_at_checked(size) else {
        return Ok(None);
    };
    let Some((data, slice)) = rest.split_at_checked(usize::from(*length)) else {
        return Ok(None);
    };
    let fresh = Reader::fresh(octets::byte_at(head, 1));
    print!(rt; " {}", refusals::why(fresh.refusal))?;
    let mut bytes = [0u8; Reader::CAPACITY];
    bytes[0] = *first;
    bytes[1] = *second;
    Ok(Some(Parts {
        head,
        bytes,
        latest: latest::store(fresh.reader.latest, *id, data, data.len()),
        slice,
    }))
}

fn record(rt: &impl Print, kind: u8, s: &[u8]) -> io::Result<()> {
    let Some(parts) = read_parts(rt, s, 48)? else {
        return Ok(());
    };
    let r = Reader {
        head: head_of(parts.head),
        latest: parts.latest,
        bytes: parts.bytes,
    };
    run_record(rt, kind, r, parts.slice)
}

fn record32(rt: &impl Print, s: &[u8]) -> io::Result<()> {
    let Some(parts) = read_parts(rt, s, 28)? else {
        return Ok(());
    };
    let old = Reader32 {
        head: head32_of(parts.head),
        latest: Latest32::from(parts.latest),
        bytes: parts.bytes,
    };
    let taken = takeover::take_over(old);
    print!(rt; " {}", refusals::why(taken.refusal))?;
    print_counts(rt, taken.reader.head)?;
    println!(rt)?;
    print_parts(rt, &taken.reader)?;
    feed(rt, taken.reader, parts.slice)
}

fn write(rt: &impl Print, s: &[u8]) -> io::Result<()> {
    let [_, mode, id, low, high, body @ ..] = s else {
        return Ok(());
    };
    let room = usize::from(u16::from_le_bytes([*low, *high]));
    let mut buf = [0x5Au8; 2048];
    let Some(lent) = buf.get_mut(..room) else {
        return Ok(());
    };
    let written = writer::write(*mode, *id, body, lent);
    print_answer(rt, &written)?;
    print_octets(rt, " ", &buf, room + 4)?;
    println!(rt)
}

fn case(rt: &impl Print, s: &[u8]) -> io::Result<()> {
    match octets::byte_at(s, 0) {
        4 => write(rt, s),
        6 => record32(rt, s),
        kind => record(rt, kind, s),
    }
}

fn main(rt: HostRuntime) -> io::Result<()> {
    let rt = Regardless(rt);
    let mut input = [0u8; 262144];
    let mut bytes = [0u8; 4096];
    answering::each_call(&rt, &mut input, &mut bytes, |s| case(&rt, s))
}
