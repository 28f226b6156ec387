// Lays out the lists and journals that it reads, a line each, and prints what writing and reading make of them. A line that starts with #
// is printed as it is. Any other is hexadecimal text: a number, another, a count and a length in two bytes each, low byte first, then
// bytes. So many of these are a part, which is laid down so many times; the rest follows it once. The first number says what they are:
// - 03, a list. A line has refusal and length of writing its records, and the digest (from 0 on, with each byte, 31 times the digest and
//   the byte, modulo 65,521) of them and the 8 bytes after, in a buffer of AAh. Of one that is not refused the next line has what reading
//   to the end gives: the messages, the bytes taken, the last refusal, and the digest of identifiers, lengths and data as a list has them.
//   The last line is the first again, of a buffer that ends the second number of bytes before the records do.
// - 04, a journal. The line has refusal, identifier, length and taken of its first record, the digest of all 1,024 bytes, and what reading
//   to the end gives.
// - 05, a journal. A line for each of its bytes, changed by exclusive or with the second number: the place, and what reading to the end
//   gives.
// - 06, a journal. A line for each length, from 0 on: the length, and what reading so much of it to the end gives.
// - 07, a header, a width and a place in a byte each, then data. The line has whether its columns are within a buffer of 64 bytes of AAh
//   from that place on (1, else 0) and the digest of the buffer, then the same of its rows.
// All numbers are decimal.
#![tactic(auto)]

use answering::{Regardless, digest, print_answer};
use journal::Entry;
use refusals::Refusal;
use std::io;

// Sums stay below this, far above any that a list comes to.
const LARGE: u64 = 0x100000000;

// What reading a journal to the end gave.
#[derive(Clone, Copy, Default)]
struct Through {
    messages: u64,
    taken: u64,
    refusal: Option<Refusal>,
    digest: u64,
}

// Goes on with a message as a list has it: identifier, length in two bytes, data.
fn digest_entry(before: u64, r: &Entry) -> u64 {
    let [low, high, ..] = r.length.to_le_bytes();
    digest(digest(before, &[r.id, low, high]), r.data())
}

fn heard(t: Through, r: &Entry) -> Through {
    Through {
        messages: t.messages % LARGE + 1,
        taken: t.taken % LARGE + r.taken as u64 % LARGE,
        digest: digest_entry(t.digest, r),
        ..t
    }
}

// Reads record after record, to the end or a refusal.
fn read_through(s: &[u8]) -> Through {
    let mut t = Through::default();
    let mut rest = s;
    for _ in 0..30000 {
        match journal::read(rest) {
            Ok(Some(r)) => {
                t = heard(t, &r);
                // A record that claims more than there is isn't believed.
                rest = rest.get(r.taken..).unwrap_or(&[]);
            }
            Ok(None) => break,
            Err(refusal) => {
                t.refusal = Some(refusal);
                break;
            }
        }
    }
    t
}

fn show_through(rt: &impl Print, s: &[u8]) -> io::Result<()> {
    let t = read_through(s);
    let refusal = refusals::why(t.refusal);
    println!(rt; " {} {} {refusal} {}", t.messages, t.taken, t.digest)
}

// What writing answered, and the start of the buffer with 8 bytes more.
fn show_written(rt: &impl Print, written: &Result<usize, Refusal>, buf: &[u8]) -> io::Result<()> {
    print_answer(rt, written)?;
    let Some((records, more)) = buf.split_at_checked(written.unwrap_or(0)) else {
        return Ok(());
    };
    let Some(after) = more.get(..8) else {
        return Ok(());
    };
    println!(rt; " {}", digest(digest(0, records), after))
}

// Writes the records of a list into so many bytes of a buffer, or all of it where there are no more.
fn write_into(list: &[u8], buf: &mut [u8], room: usize) -> Result<usize, Refusal> {
    match buf.get_mut(..room) {
        Some(lent) => journal::write(list, lent),
        None => journal::write(list, buf),
    }
}

// Shows them in a buffer of AAh. How long they are, where they are written.
fn show_records(
    rt: &impl Print,
    list: &[u8],
    buf: &mut [u8],
    room: usize,
) -> io::Result<Option<usize>> {
    buf.fill(0xAA);
    let written = write_into(list, buf, room);
    show_written(rt, &written, buf)?;
    Ok(written.ok())
}

fn show_journal(rt: &impl Print, list: &[u8], less: u8) -> io::Result<()> {
    let mut buf = [0u8; 110008];
    let written = show_records(rt, list, &mut buf, 110000)?;
    if let Some(length) = written {
        show_through(rt, buf.get(..length).unwrap_or(&[]))?;
    }
    let room = written.unwrap_or(0).saturating_sub(usize::from(less));
    show_records(rt, list, &mut buf, room)?;
    Ok(())
}

fn show_record(rt: &impl Print, s: &[u8]) -> io::Result<()> {
    let first = journal::read(s);
    match first {
        Ok(Some(r)) => {
            print!(rt; " 0 {} {} {}", r.id, r.length, r.taken)?;
            print!(rt; " {}", digest(0, &r.bytes))?;
        }
        // The digest of zeros is 0.
        _ => print!(rt; " {} 0 0 0 0", refusals::code(&first))?,
    }
    show_through(rt, s)
}

fn show_damaged(rt: &impl Print, s: &[u8], at: usize, change: u8) -> io::Result<()> {
    let mut buf = [0u8; 1024];
    let Some(copy) = buf.get_mut(..s.len()) else {
        return Ok(());
    };
    copy.copy_from_slice(s);
    if let Some(b) = copy.get_mut(at) {
        *b ^= change;
    }
    print!(rt; " {at}")?;
    show_through(rt, copy)
}

fn show_damage(rt: &impl Print, s: &[u8], change: u8) -> io::Result<()> {
    for at in 0..s.len() {
        show_damaged(rt, s, at, change)?;
    }
    Ok(())
}

fn show_cuts(rt: &impl Print, s: &[u8]) -> io::Result<()> {
    for n in 0..=s.len() {
        print!(rt; " {n}")?;
        show_through(rt, &s[..n])?;
    }
    Ok(())
}

// Whether they were within the buffer, and the digest of it.
fn show_turned(rt: &impl Print, within: bool, buf: &[u8]) -> io::Result<()> {
    print!(rt; " {} {}", u8::from(within), digest(0, buf))
}

fn show_both_ways(rt: &impl Print, s: &[u8]) -> io::Result<()> {
    let [header, width, at, body @ ..] = s else {
        return Ok(());
    };
    let header = usize::from(*header);
    let width = usize::from(*width);
    let at = usize::from(*at);
    let mut columns = [0xAAu8; 64];
    let within = columns::to_columns(body, header, width, &mut columns, at);
    show_turned(rt, within, &columns)?;
    let mut rows = [0xAAu8; 64];
    let within = columns::to_rows(body, header, width, &mut rows, at);
    show_turned(rt, within, &rows)?;
    println!(rt)
}

fn show(rt: &impl Print, what: u8, change: u8, s: &[u8]) -> io::Result<()> {
    match what {
        3 => show_journal(rt, s, change),
        4 => show_record(rt, s),
        5 => show_damage(rt, s, change),
        6 => show_cuts(rt, s),
        _ => show_both_ways(rt, s),
    }
}

fn main(rt: HostRuntime) -> io::Result<()> {
    let rt = Regardless(rt);
    let mut input = [0u8; 131072];
    let mut bytes = [0u8; 4096];
    answering::each_list(&rt, &mut input, &mut bytes, |what, change, s| {
        show(&rt, what, change, s)
    })
}
