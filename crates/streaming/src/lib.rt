// Lists standard input as it comes in: what the two programs do. The lines of each read are written before the next.
#![tactic(auto)]

ghost use Rattle.std.specs.Prelude.{true, ◌≡◌, ◌≤◌, length};
ghost use Rattle.refusals.specs.Numbers.{why};
ghost use Rattle.record.specs.View.{view};
ghost use Rattle.listing.specs.Text.{longest_event};
ghost use Rattle.lister.specs.Posts.{Good};
ghost use Rattle.streaming.specs.Posts.{Moved, read_number, ChunkPost, ReadsPost, TotalPost, ListedPost, unread_of};

use listing::LONGEST_TOTAL;
use record::Reader;
use refusals::Refusal;
use std::env::{Env, FillError};
use std::io::{Error, ErrorKind, Read, Stdin, Write};

// The reader after a chunk, the refusal where a byte of it can't be counted, and whether its lines were written.
#[derive(Clone, Copy)]
pub struct Chunk {
    pub reader: Reader,
    pub refusal: Option<Refusal>,
    pub written: bool,
}

// The same after the last chunk, with how many bytes the reads brought, and what the last one answered: none of an error. Where a byte
// of the last can't be counted, its bytes are `rest`, since 64 bits may not hold the sum; else there are none.
#[derive(Clone, Copy)]
pub struct Reads {
    pub chunk: Chunk,
    pub read: usize,
    pub rest: usize,
    pub last: Option<usize>,
}

// How a listing ended: the same, with the total. `written` says whether it was written too.
#[derive(Clone, Copy)]
pub struct Ended {
    pub reader: Reader,
    pub refusal: Option<Refusal>,
    pub written: bool,
    pub read: usize,
    pub rest: usize,
    pub last: Option<usize>,
    pub total: [u8; LONGEST_TOTAL],
    pub length: usize,
}

// Prints the lines of a chunk, as many at a time as the buffer has room for.
fn list_chunk(r: Reader, s: &[u8], lines: &mut [u8]) -> Chunk
    requires { Good r × (longest_event ≤ length lines.old) }
    ensures { ChunkPost r s.now result }
{
    let mut g = r;
    let mut rest = s;
    'parts: while !rest.is_empty() {
        let p = lister::list_part(g, rest, lines);
        if !io::write_all(1, &lines[..p.length]) {
            return Chunk {
                reader: r,
                refusal: None,
                written: false,
            };
        }
        g = p.reader;
        let done = p.taken == 0;
        if done {
            return Chunk {
                reader: g,
                refusal: p.refusal,
                written: true,
            };
        }
        rest = &rest[p.taken..];
    }
    Chunk {
        reader: g,
        refusal: None,
        written: true,
    }
}

// How long the system's reason is, without the number that std writes behind it.
fn reason_length(text: &[u8]) -> usize
    ensures { result ≤ length text.now }
{
    let number: &[u8] = b" (os error ";
    text.windows(number.len())
        .position(|w| w == number)
        .unwrap_or(text.len())
}

// An input that could not be read to its end does not look like one that was.
fn say_error(error: Error) {
    let mut text = [0u8; 256];
    let mut rest = &mut text[..];
    let _ = write!(rest, "{error}");
    let n = 256usize.saturating_sub(rest.len());
    io::write_all(2, b"The input ended by an error: ");
    io::write_all(2, &text[..reason_length(&text[..n])]);
    io::write_all(2, b"\n");
}

// Reads once, and again where a signal interrupted it. A read that fails is said, and answered by none.
fn read_some(input: Stdin, bytes: &mut [u8]) -> Option<usize>
    ensures { Moved (length bytes.old) (read_number result) }
{
    let mut input = input;
    let mut turns = u64::MAX;
    loop {
        match input.read(bytes) {
            Ok(n) => return Some(n),
            Err(e) => {
                if e.kind() != ErrorKind::Interrupted || turns == 0 {
                    say_error(e);
                    return None;
                }
            }
        }
        turns -= 1;
    }
}

// Lists what each read brings, until one brings nothing. Before the first, nothing is read or written.
fn list_reads(input: Stdin, first: Chunk) -> Reads
    requires { Good first.reader × (first.reader.head.fed ≡ 0) × (why first.refusal ≡ 0) }
    ensures { ReadsPost (view first.reader) result }
{
    let mut c = first;
    let mut bytes = io::large_buffer();
    let mut lines = io::large_buffer();
    let mut read = 0;
    loop {
        let got = read_some(input, &mut bytes);
        let n = got.unwrap_or(0);
        let ended = n == 0;
        if ended {
            return Reads {
                chunk: c,
                read,
                rest: 0,
                last: got,
            };
        }
        c = list_chunk(c.reader, &bytes[..n], &mut lines);
        if !c.written {
            return Reads {
                chunk: c,
                read,
                rest: 0,
                last: got,
            };
        }
        let refused = c.refusal.is_some();
        if refused {
            return Reads {
                chunk: c,
                read,
                rest: n,
                last: got,
            };
        }
        read += n;
    }
}

// Where a write failed the listing does not end with the total, or not with all of it.
fn say_cut(written: bool) {
    if !written {
        io::write_all(2, b"The listing is cut: it could not be written.\n");
    }
}

// Nothing is written after a write that failed.
fn write_on(written: bool, s: &[u8]) -> bool
    ensures { result ≡ true → written ≡ true }
{
    written && io::write_all(1, s)
}

// Prints the total of the reader after all reads.
fn print_total(x: Reads) -> Ended
    ensures { TotalPost x result }
{
    let c = x.chunk;
    let mut total = [0u8; LONGEST_TOTAL];
    let n = listing::list_total(c.reader, &mut total).unwrap();
    let written = write_on(c.written, &total[..n]);
    say_cut(written);
    Ended {
        reader: c.reader,
        refusal: c.refusal,
        written,
        read: x.read,
        rest: x.rest,
        last: x.last,
        total,
        length: n,
    }
}

// A mode that has no reader: nothing is read, and nothing was to be written.
fn unread(r: Reader, refusal: Refusal) -> Ended
    ensures { result ≡ unread_of r refusal }
{
    Ended {
        reader: r,
        refusal: Some(refusal),
        written: true,
        read: 0,
        rest: 0,
        last: Some(0),
        total: [0u8; LONGEST_TOTAL],
        length: 0,
    }
}

fn say_word(word: &[u8]) {
    io::write_all(2, b"This argument is not known: ");
    io::write_all(2, word);
    io::write_all(2, b"\n");
}

// Names an argument, or the first bytes of one that is longer than the buffer. It answers whether there is one.
fn say_unknown(rt: HostRuntime, i: usize) -> bool {
    let mut word = io::buffer();
    match rt.arg(i, &mut word) {
        Ok(n) => say_word(&word[..n]),
        Err(FillError::TooLong) => say_word(&word),
        Err(FillError::NotPresent) => return false,
    }
    true
}

// The programs know no argument, and go on without.
fn say_arguments(rt: HostRuntime) {
    for i in 1..usize::MAX {
        if !say_unknown(rt, i) {
            return;
        }
    }
}

// Lists standard input by a fresh reader of a mode, and prints the total.
pub fn list_input(rt: HostRuntime, mode: u8) -> Ended
    ensures { ListedPost mode result }
{
    let f = Reader::fresh(mode);
    if let Some(refusal) = f.refusal {
        return unread(f.reader, refusal);
    }
    say_arguments(rt);
    let first = Chunk {
        reader: f.reader,
        refusal: None,
        written: true,
    };
    let x = list_reads(rt.stdin(), first);
    print_total(x)
}
