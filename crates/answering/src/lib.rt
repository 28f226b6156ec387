// What the test programs share: how they read calls, a line each, lay out a list that a call gives in parts, and print bytes.
#![tactic(auto)]

ghost use Rattle.std.specs.Prelude.{◌≡◌, IsOk};
ghost use Rattle.answering.specs.Digest.{digested};
ghost use Rattle.answering.specs.Parts.{laid, laid_into};

use refusals::Refusal;
use std::fmt::Display;
use std::io::Result as IoResult;
use std::iter;

// Prints by what it holds, but goes on where that fails: what can't be written is left out, and the next print is tried again.
#[derive(Drop)]
pub struct Regardless<P>(pub P);

impl<P: Print> Print for Regardless<P> {
    fn print<D: Display + Drop>(&self, value: D) -> IoResult<()>
        ensures { IsOk result }
    {
        let _ = self.0.print(value);
        Ok(())
    }

    fn println<D: Display + Drop>(&self, value: D) -> IoResult<()>
        ensures { IsOk result }
    {
        let _ = self.0.println(value);
        Ok(())
    }

    fn write_all(&self, bytes: &[u8]) -> IoResult<()>
        ensures { IsOk result }
    {
        let _ = self.0.write_all(bytes);
        Ok(())
    }
}

// Prints these numbers, each after a space.
pub fn print_numbers<N: Display>(rt: &impl Print, numbers: &[N]) -> IoResult<()> {
    for n in numbers {
        print!(rt; " {n}")?;
    }
    Ok(())
}

// Prints what writing into a lent buffer answered: 0 and the length, or the refusal's number and 0.
pub fn print_answer(rt: &impl Print, answer: &Result<usize, Refusal>) -> IoResult<()> {
    print!(rt; " {} {}", refusals::code(answer), answer.unwrap_or(0))
}

// Prints it after what is decoded.
pub fn print_written(rt: &impl Print, answer: &Result<usize, Refusal>) -> IoResult<()> {
    print!(rt; " /")?;
    print_answer(rt, answer)
}

// Prints these bytes, as many of them as there are to be, as hexadecimal digits, each after a separator; 0 for one past the end.
pub fn print_octets(rt: &impl Print, separator: &str, s: &[u8], count: usize) -> IoResult<()> {
    for b in s.iter().chain(iter::repeat(&0)).take(count) {
        print!(rt; "{separator}{b:02x}")?;
    }
    Ok(())
}

// Goes over the lines of standard input, as much of it as the buffer holds.
pub fn each_line<F: FnMut(&[u8]) -> IoResult<()>>(input: &mut [u8], mut visit: F) -> IoResult<()>
    requires { F.IsAlwaysCallable visit }
{
    let n = io::read_full(0, input);
    let mut rest = &input[..n];
    while !rest.is_empty() {
        let (line, more) = rest.split_at(hexlines::line_end(rest, 0));
        visit(line)?;
        rest = more.get(1..).unwrap_or(&[]);
    }
    Ok(())
}

// Prints a line that starts with # as it is, and runs any other: it is hexadecimal text, and `run` gets the bytes that it stands for.
fn answer_line<F: Fn(&[u8]) -> IoResult<()>>(
    rt: &impl Print,
    line: &[u8],
    call: &mut [u8],
    run: &F,
) -> IoResult<()>
    requires { (x : _) → F.pre run.now x }
{
    if line.starts_with(b"#") {
        rt.write_all(line)?;
        println!(rt)
    } else {
        let n = hexlines::parse(line, call);
        run(&call[..n])
    }
}

// Goes over them too. A line that starts with # is printed as it is; any other is hexadecimal text, and `run` gets the bytes that it
// stands for, as many as the second buffer holds.
pub fn each_call<F: Fn(&[u8]) -> IoResult<()>>(
    rt: &impl Print,
    input: &mut [u8],
    call: &mut [u8],
    run: F,
) -> IoResult<()>
    requires { (state : F) (x : _) → F.pre state x }
{
    each_line(input, |line| answer_line(rt, line, call, &run))
}

// The digest goes on with each of these bytes: 31 times the digest and the byte, modulo 65,521.
pub fn digest(before: u64, s: &[u8]) -> u64
    ensures { result ≡ digested before s.now }
{
    s.iter()
        .fold(before, |d, b| (d % 65521 * 31 + u64::from(*b)) % 65521)
}

// Lays out what a call gives in parts: after two bytes that are the caller's, a count and a length in two bytes each, low byte first,
// then bytes. So many of these are a part, which is laid down so many times, as often as there is room; the rest follows it once.
// How much of the buffer that takes; nothing where bytes of the call are missing or the rest has no room.
pub fn lay_out(call: &[u8], buf: &mut [u8]) -> Option<usize>
    ensures { (result ≡ laid call.now buf.old) × (buf.new ≡ laid_into call.now buf.old) }
{
    let (_, bytes) = call.split_at_checked(6)?;
    let count = numbers::u16_at(call, 2);
    let length = usize::from(numbers::u16_at(call, 4));
    let (part, tail) = bytes.split_at_checked(length)?;
    let mut at = 0;
    for _ in 0..count {
        if !octets::put(part, buf, at) {
            break;
        }
        at += part.len();
    }
    if !octets::put(tail, buf, at) {
        return None;
    }
    Some(at + tail.len())
}

// Runs such a call: `run` gets the two bytes that are the caller's, and what is laid out. Where bytes are missing, nothing is run.
fn run_laid_out<F: Fn(u8, u8, &[u8]) -> IoResult<()>>(call: &[u8], run: &F) -> IoResult<()>
    requires { (x y z : _) → F.pre run.now x y z }
{
    let mut buf = [0u8; 66000];
    let Some(n) = lay_out(call, &mut buf) else {
        return Ok(());
    };
    let [first, second, ..] = call else {
        return Ok(());
    };
    run(*first, *second, &buf[..n])
}

// Goes over the calls, each of which is given in parts.
pub fn each_list<F: Fn(u8, u8, &[u8]) -> IoResult<()>>(
    rt: &impl Print,
    input: &mut [u8],
    call: &mut [u8],
    run: F,
) -> IoResult<()>
    requires { (state : F) (x y z : _) → F.pre state x y z }
{
    each_call(rt, input, call, |s| run_laid_out(s, &run))
}
