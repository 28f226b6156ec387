// Reads captures as hexadecimal text, a line each (mode, then the bytes). Of each it prints the mode, then the events of single steps,
// a line each (offset, identifier, number, bytes closed, a message's data), then the record they leave (fed, accepted, refused,
// outside, pending; a line for each latest message, identifier and data). Then it feeds the capture as two slices, cut at every
// place, and prints how many cuts there are, and the places of those whose events or record differ. All numbers are hexadecimal.
//
// Events and records are compared by a sum of all that is printed of them. They go to a sink, line after line: one sums, and the other
// prints too, so that a cut, which is not to be printed, goes the same way.
#![tactic(auto)]

ghost use Rattle.std.specs.Prelude.{◌≤◌};

use answering::{Regardless, print_octets};
use record::{Answer, Event, Reader};
use std::io;

// What lines go to, each of numbers, then bytes.
trait Sink {
    fn line(&mut self, numbers: &[u64], bytes: &[u8]) -> io::Result<()>;
}

// The sum of the numbers and bytes so far.
#[derive(Clone, Copy, PartialEq, Eq)]
struct Sum(u64);

impl Sum {
    // Goes on with one more. It does not wrap: 257 times 2^55 and 2^32 more is below 2^64.
    fn add(&mut self, n: u64) {
        self.0 = (self.0 % 36028797018963913) * 257 + n % 4294967296;
    }
}

impl Sink for Sum {
    fn line(&mut self, numbers: &[u64], bytes: &[u8]) -> io::Result<()> {
        for n in numbers {
            self.add(*n);
        }
        for b in bytes {
            self.add(u64::from(*b));
        }
        Ok(())
    }
}

// Prints the lines, and sums them.
#[derive(Drop)]
struct Printed<'a, P: Print> {
    rt: &'a P,
    sum: Sum,
}

impl<P: Print> Sink for Printed<'_, P> {
    fn line(&mut self, numbers: &[u64], bytes: &[u8]) -> io::Result<()> {
        for n in numbers {
            print!(self.rt; " {n:02x}")?;
        }
        print_octets(self.rt, " ", bytes, bytes.len())?;
        println!(self.rt)?;
        self.sum.line(numbers, bytes)
    }
}

// An event, raised by the byte at an offset, with the refusal's number, or 0 for a message.
fn event(sink: &mut impl Sink, offset: usize, a: Answer) -> io::Result<()> {
    if a.event == Event::Nothing {
        return Ok(());
    }
    let n = refusals::why(a.event.refusal());
    let data = &a.bytes[..a.len.min(a.bytes.len())];
    sink.line(
        &[offset as u64, u64::from(a.id), u64::from(n), a.closed],
        data,
    )
}

// The record's counts, and each standing reading that there is.
fn record(sink: &mut impl Sink, r: Reader) -> io::Result<()> {
    let h = r.head;
    sink.line(&[h.fed, h.accepted, h.refused, h.outside, h.pending], &[])?;
    for id in [0x43, 0x46, 0xEB, 0x4A, 0x4B] {
        if let Some(d) = r.latest.data(id) {
            sink.line(&[u64::from(id)], d)?;
        }
    }
    Ok(())
}

// A capture by single steps.
fn by_steps(sink: &mut impl Sink, first: Reader, s: &[u8]) -> io::Result<()> {
    let mut r = first;
    for (i, b) in s.iter().enumerate() {
        let t = calls::step(r, *b);
        event(sink, i, t.answer)?;
        r = t.reader;
    }
    record(sink, r)
}

// Where the slice from a place on ends: at the cut, or past it at the end.
fn stop(from: usize, cut: usize, len: usize) -> usize
    requires { from ≤ len }
    ensures { (from ≤ result) × (result ≤ len) }
{
    if from < cut && cut < len { cut } else { len }
}

// The sum of a capture as two slices, each fed again from where a call stopped.
fn by_cut(first: Reader, s: &[u8], cut: usize) -> io::Result<Option<Sum>> {
    let mut r = first;
    let mut sum = Sum(0);
    let mut done = 0;
    while done < s.len() {
        let end = stop(done, cut, s.len());
        let f = calls::feed(r, &s[done..end]);
        // A call that takes nothing, or claims more than it was given, is wrong.
        if f.taken == 0 || end - done < f.taken {
            return Ok(None);
        }
        done += f.taken;
        event(&mut sum, done - 1, f.answer)?;
        r = f.reader;
    }
    record(&mut sum, r)?;
    Ok(Some(sum))
}

// One capture: its first byte is the mode.
fn capture(rt: &impl Print, s: &[u8]) -> io::Result<()> {
    let Some((mode, bytes)) = s.split_first() else {
        return Ok(());
    };
    let reader = Reader::fresh(*mode).reader;
    println!(rt; " {mode:02x}")?;
    let mut printed = Printed { rt, sum: Sum(0) };
    by_steps(&mut printed, reader, bytes)?;
    print!(rt; " {:02x}", s.len())?;
    for cut in 0..=bytes.len() {
        if by_cut(reader, bytes, cut)? != Some(printed.sum) {
            print!(rt; " {cut:02x}")?;
        }
    }
    println!(rt)
}

fn capture_line(rt: &impl Print, s: &[u8]) -> io::Result<()> {
    let mut bytes = [0u8; 1024];
    let n = hexlines::parse(s, &mut bytes);
    capture(rt, &bytes[..n])
}

fn main(rt: HostRuntime) -> io::Result<()> {
    let rt = Regardless(rt);
    let mut input = [0u8; 65536];
    answering::each_line(&mut input, |line| capture_line(&rt, line))
}
