// Lines of hexadecimal text, in upper case: what the test programs read.
#![tactic(auto)]

ghost use Rattle.std.specs.Prelude.{◌≡◌, ◌==◌, ◌+◌, ◌*◌, ◌-◌, ◌≤◌, ◌<◌, length, drop, position};
ghost use Rattle.octets.specs.Placing.{placed};
ghost use Rattle.hexlines.specs.Lines.{line_length, digit_of, parsed};

// Where the first line end is, if there is one.
fn newline(s: &[u8]) -> Option<usize>
    ensures { result ≡ position (λ b. b == 10) s.now }
{
    s.iter().position(|b| *b == b'\n')
}

// The place of the next line end from a place on, or the text's end; past the end, the place itself. The second clause follows from
// the first: it is what a caller that cuts the line out needs.
pub fn line_end(s: &[u8], from: usize) -> usize
    ensures value { result ≡ from + line_length (drop from s.now) }
    ensures within { (from ≤ result) × (result ≤ from + (length s.now - from)) }
{
    let Some(rest) = s.get(from..) else {
        return from;
    };
    match newline(rest) {
        Some(length) => from + length,
        None => s.len(),
    }
}

// What a digit stands for; 0 for any other character.
#[tactic(auto, unfolding(crate::specs::Lines::digit_of))]
fn digit(b: u8) -> u8
    ensures { (result ≡ digit_of b) × (result < 16) }
{
    match b {
        b'0'..=b'9' => b - b'0',
        b'A'..=b'F' => b - b'A' + 10,
        _ => 0,
    }
}

// The byte that two digits stand for.
fn octet(high: u8, low: u8) -> u8
    ensures { result ≡ digit_of high * 16 + digit_of low }
{
    digit(high) * 16 + digit(low)
}

// The bytes that a line of digits stands for, as many as there is room for, into the buffer's start; how many these are.
// The second clause follows from the first, and is for a caller that cuts them out.
pub fn parse(s: &[u8], out: &mut [u8]) -> usize
    ensures value { (result ≡ length (parsed (length out.old) s.now))
        × (out.new ≡ placed out.old 0 (parsed (length out.old) s.now)) }
    ensures within { result ≤ length out.new }
{
    let mut n: usize = 0;
    for pair in s.chunks(2) {
        if out.len() <= n {
            return n;
        }
        let low = octets::byte_at(pair, 1);
        out[n] = octet(pair[0], low);
        n += 1;
    }
    n
}
