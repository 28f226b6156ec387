// Reads calls as hexadecimal text, a line each, and prints what the calls answer that write a listing or count its events, and the
// functions of the static library. A line that starts with # is printed as it is. Any other is call, mode, identifier, room in two
// bytes, low byte first, then for calls 01 to 05 the bytes or data, for the others five numbers of eight bytes, low byte first, then
// the bytes:
// - 01 list, 02 binr_list: the listing of the bytes
// - 03 binr_write: the frame of a message
// - 04 binr_judge: the answer of questions 10 to 12
// - 05 count_events, binr_count: the number of events
// - 06 event_line: the first number is the offset, the second the bytes closed; the event's number stands where the mode does
// - 07 total_line: of the five numbers
// - 08 list_total: of a reader with the five counts
// - 09 list_part: such a reader takes the bytes
//
// A call's line has its number and its answer; of 09 that is refusal, taken and length, then the five counts afterwards. Where it
// fills a buffer, that follows, of Z before the call, up to four bytes past the room.
#![tactic(auto)]

use answering::{Regardless, print_answer};
use listing::Totals;
use record::{Count, Head, Reader};
use refusals::Refusal;
use std::io;

// The five numbers of a line.
fn given(s: &[u8]) -> [Count; 5] {
    [5, 13, 21, 29, 37].map(|at| numbers::u64_at(s, at))
}

fn event_line(s: &[u8], buf: &mut [u8]) -> Result<usize, Refusal> {
    let [offset, closed, ..] = given(s);
    listing::event_line(
        offset,
        octets::byte_at(s, 2),
        octets::byte_at(s, 1),
        closed,
        buf,
    )
}

fn total_line(s: &[u8], buf: &mut [u8]) -> Result<usize, Refusal> {
    let [fed, accepted, refused, outside, pending] = given(s);
    let totals = Totals {
        fed,
        accepted,
        refused,
        outside,
        pending,
    };
    listing::total_line(totals, buf)
}

// A reader outside a frame, with the counts of the line.
fn reader_of(s: &[u8]) -> Reader {
    let [fed, accepted, refused, outside, pending] = given(s);
    let mode = octets::byte_at(s, 1);
    let head = Head {
        mode,
        place: 0,
        id: 0,
        c1: 0,
        c2: 0,
        len: 0,
        fed,
        accepted,
        refused,
        outside,
        pending,
    };
    Reader {
        head,
        ..Reader::fresh(mode).reader
    }
}

fn print_counts(rt: &impl Print, h: Head) -> io::Result<()> {
    print!(rt;
        " {} {} {} {} {}",
        h.fed, h.accepted, h.refused, h.outside, h.pending
    )
}

fn run_part(rt: &impl Print, s: &[u8], buf: &mut [u8]) -> io::Result<()> {
    let Some(bytes) = s.get(45..) else {
        return Ok(());
    };
    let part = lister::list_part(reader_of(s), bytes, buf);
    let refusal = refusals::why(part.refusal);
    print!(rt; " {} {} {}", refusal, part.taken, part.length)?;
    print_counts(rt, part.reader.head)
}

fn run_count(rt: &impl Print, mode: u8, d: &[u8]) -> io::Result<()> {
    print!(rt;
        " {} {}",
        lister::count_events(mode, d),
        export::binr_count(mode, d)
    )
}

fn run_data(
    rt: &impl Print,
    call: u8,
    mode: u8,
    id: u8,
    d: &[u8],
    buf: &mut [u8],
) -> io::Result<()> {
    match call {
        1 => print_answer(rt, &lister::list(mode, d, buf)),
        2 => print!(rt; " {}", export::binr_list(mode, d, buf)),
        3 => print!(rt; " {}", export::binr_write(mode, id, d, buf)),
        4 => print!(rt; " {}", export::binr_judge(id, d)),
        _ => run_count(rt, mode, d),
    }
}

fn run(rt: &impl Print, s: &[u8], buf: &mut [u8]) -> io::Result<()> {
    let [call, mode, id, _, _, d @ ..] = s else {
        return Ok(());
    };
    match *call {
        6 => print_answer(rt, &event_line(s, buf)),
        7 => print_answer(rt, &total_line(s, buf)),
        8 => print_answer(rt, &listing::list_total(reader_of(s), buf)),
        9 => run_part(rt, s, buf),
        _ => run_data(rt, *call, *mode, *id, d, buf),
    }
}

// The buffer's first n bytes, as they are.
fn print_text(rt: &impl Print, buf: &[u8], n: usize) -> io::Result<()> {
    println!(rt)?;
    match buf.get(..n) {
        Some(text) => rt.write_all(text),
        None => Ok(()),
    }
}

fn call(rt: &impl Print, s: &[u8]) -> io::Result<()> {
    let room = usize::from(numbers::u16_at(s, 3));
    let mut buf = [b'Z'; 8192];
    print!(rt; "{:02x}", octets::byte_at(s, 0))?;
    if let Some(lent) = buf.get_mut(..room) {
        run(rt, s, lent)?;
        print_text(rt, &buf, room + 4)?;
    }
    println!(rt)
}

fn main(rt: HostRuntime) -> io::Result<()> {
    let rt = Regardless(rt);
    let mut input = [0u8; 65536];
    let mut bytes = [0u8; 4096];
    answering::each_call(&rt, &mut input, &mut bytes, |s| call(&rt, s))
}
