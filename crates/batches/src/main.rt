// Lays out the lists that it reads, a line each, and prints what they take on the line and what the writer makes of them. A line that
// starts with # is printed as it is. Any other is hexadecimal text: a number, a mode, a count and a length in two bytes each, low byte
// first, then bytes. So many of these are a part, which is laid down so many times; the rest follows it once. The number says what they
// are:
// - 00, a list. A line has the refusal, bytes and bits of its line time. Of one that is not refused a second line has the entries, the
//   writer's refusals of them added up, its lengths added up, and the digest of what it wrote, joined: from 0 on, with each byte, 31
//   times the digest and the byte, modulo 65,521.
// - 01, data. The line has the length of its frame.
// - 02, a list. The line has refusal, identifier and length of the entry at its start, at its second byte, at its end and at the highest
//   place that there is.
// All numbers are decimal.
#![tactic(auto)]

use answering::Regardless;
use batch::{Header, Message, Messages};
use refusals::Refusal;
use std::io;

// What the writer made of the entries so far.
#[derive(Clone, Copy, Default)]
struct Sums {
    entries: u64,
    refused: u64,
    length: u64,
    digest: u64,
}

// Sums stay below this, far above any that a list comes to.
const LARGE: u64 = 0x100000000;

fn write_one(mode: u8, message: Message<'_>, sums: Sums) -> Sums {
    let mut frame = [0u8; 2048];
    let written = writer::write(mode, message.id, message.data, &mut frame);
    let Some(bytes) = frame.get(..written.unwrap_or(0)) else {
        return sums;
    };
    Sums {
        entries: sums.entries % LARGE + 1,
        refused: sums.refused % LARGE + u64::from(refusals::code(&written)),
        length: sums.length % LARGE + bytes.len() as u64,
        digest: answering::digest(sums.digest, bytes),
    }
}

// Has the writer write each message of a list that is the entry at its place too.
fn write_all(mode: u8, list: &[u8]) -> Result<Sums, Refusal> {
    let mut sums = Sums::default();
    let mut at: usize = 0;
    for message in Messages::new(list)? {
        let given = message?;
        let length = given.data.len();
        let here = Header {
            id: given.id,
            length,
        };
        if batch::entry_at(list, at)? == here {
            sums = write_one(mode, given, sums);
        }
        at = at.saturating_add(length.saturating_add(3));
    }
    Ok(sums)
}

fn show_sums(rt: &impl Print, sums: Sums) -> io::Result<()> {
    println!(rt;
        " {} {} {} {}",
        sums.entries, sums.refused, sums.length, sums.digest
    )
}

fn show_list(rt: &impl Print, mode: u8, list: &[u8]) -> io::Result<()> {
    match batch::line_time(mode, list) {
        Ok(time) => {
            println!(rt; " 0 {} {}", time.bytes, time.bits)?;
            show_sums(rt, write_all(mode, list).unwrap_or_default())
        }
        Err(refusal) => println!(rt; " {} 0 0", refusal.number()),
    }
}

fn show_entries(rt: &impl Print, list: &[u8]) -> io::Result<()> {
    for at in [0, 1, list.len(), usize::MAX] {
        match batch::entry_at(list, at) {
            Ok(entry) => print!(rt; " 0 {} {}", entry.id, entry.length)?,
            Err(refusal) => print!(rt; " {} 0 0", refusal.number())?,
        }
    }
    println!(rt)
}

fn show(rt: &impl Print, what: u8, mode: u8, s: &[u8]) -> io::Result<()> {
    match what {
        0 => show_list(rt, mode, s),
        1 => println!(rt; " {}", writer::frame_length(mode, s)),
        _ => show_entries(rt, s),
    }
}

fn main(rt: HostRuntime) -> io::Result<()> {
    let rt = Regardless(rt);
    let mut input = [0u8; 131072];
    let mut bytes = [0u8; 4096];
    answering::each_list(&rt, &mut input, &mut bytes, |what, mode, s| {
        show(&rt, what, mode, s)
    })
}
