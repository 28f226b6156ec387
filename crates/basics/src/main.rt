// Prints the checksum's published vectors: the register over "123456789", then, a line for each byte, the register over it alone and
// its entry of the table. The stored output of these is the table printed in Appendix A.3 of the protocol document, but for the entry of
// 5Ah, which is misprinted there: it is the older edition's.
//
// Then it reads calls as hexadecimal text, a line each, and prints what the calls under the others answer. A line that starts with # is
// printed as it is. Any other is call, two numbers a and b of eight bytes, low byte first, then bytes:
// - 01 within: a the length, b the place, the first eight bytes how many
// - 02 byte_at: place a of the bytes
// - 03 put: the bytes at place a of b bytes of a buffer of 5A
// - 04 u16_at, u32_at, u64_at, int8u_at, int8s_at: place a of the bytes
// - 05 int8_of, int16_of: the bytes' first, and the number of the first two
// - 06 count_dle, four_plain: of the bytes, from place a on
// - 07 message, after_slice: the bytes after the first two, with the first as identifier, and as register
// - 08 encode of rows: identifier, width, how many widths, how many words are the first four bytes, a each word, b the room
// - 09 store, acceptable: identifier and length are the first two bytes, the data those after them
// - 0A question: the first byte is the mode, the next two numbers of eight bytes are fed and outside; a is the length of the array, b
//   how many bytes are offered
// - 0B contains, insert, place: a is the set, b the place; system and number are the first two bytes
// - 0C parse, line_end: of the bytes as text, with room b, and from place a on
// - 0D number, of every refusal but those of a journal
// - 0E int8_byte, int16_word, of numbers at the ends and around 0
// - 0F is_leap, days_in, is_date: the bytes are day, month and year
//
// A call's line has its number and its answers, in this order; where it fills a buffer, that is last, up to four bytes past the room.
#![tactic(auto)]

ghost use Rattle.std.specs.Prelude.{◌≤◌, length};

use answering::{Regardless, print_answer, print_octets};
use latest::Latest;
use record::{Head, Reader};
use refusals::Refusal;
use std::io;

fn print_flag(rt: &impl Print, on: bool) -> io::Result<()> {
    print!(rt; " {}", u8::from(on))
}

// A buffer up to four bytes past the room.
fn print_buffer(rt: &impl Print, buf: &[u8], room: usize) -> io::Result<()>
    requires { room ≤ length buf.now }
{
    print!(rt; " ")?;
    print_octets(rt, "", buf, room + 4)
}

fn run_put(rt: &impl Print, at: usize, room: usize, d: &[u8], buf: &mut [u8]) -> io::Result<()> {
    let Some(lent) = buf.get_mut(..room) else {
        return Ok(());
    };
    print_flag(rt, octets::put(d, lent, at))?;
    print_buffer(rt, buf, room)
}

fn run_numbers(rt: &impl Print, at: usize, d: &[u8]) -> io::Result<()> {
    print!(rt;
        " {} {} {} {} {}",
        numbers::u16_at(d, at),
        numbers::u32_at(d, at),
        numbers::u64_at(d, at),
        numbers::int8u_at(d, at),
        numbers::int8s_at(d, at)
    )
}

fn run_signed(rt: &impl Print, d: &[u8]) -> io::Result<()> {
    let byte = numbers::int8_of(octets::byte_at(d, 0));
    let word = numbers::int16_of(numbers::u16_at(d, 0));
    print!(rt; " {byte} {word}")
}

fn run_stuffing(rt: &impl Print, at: usize, d: &[u8]) -> io::Result<()> {
    print!(rt; " {}", stuffing::count_dle(d))?;
    print_flag(rt, stuffing::four_plain(d, at))
}

fn run_sums(rt: &impl Print, d: &[u8]) -> io::Result<()> {
    let [low, high, body @ ..] = d else {
        return Ok(());
    };
    let register = u16::from_le_bytes([*low, *high]);
    print!(rt;
        " {} {}",
        checksum::message(*low, body),
        checksum::after_slice(register, body)
    )
}

fn run_rows(rt: &impl Print, x: u64, room: usize, d: &[u8], buf: &mut [u8]) -> io::Result<()> {
    let Some(lent) = buf.get_mut(..room) else {
        return Ok(());
    };
    let words = [x; 17];
    let widths = [usize::from(octets::byte_at(d, 1)); 17];
    let how_many_widths = usize::from(octets::byte_at(d, 2));
    let how_many_words = usize::from(octets::byte_at(d, 3));
    if let (Some(words), Some(widths)) = (
        words.get(..how_many_words),
        widths.get(..how_many_widths),
    ) {
        let written = rows::encode(octets::byte_at(d, 0), words, widths, lent);
        print_answer(rt, &written)?;
    }
    print_buffer(rt, buf, room)
}

// The latest messages that there are.
fn print_latest(rt: &impl Print, l: &Latest) -> io::Result<()> {
    for id in [0x43, 0x46, 0xEB, 0x4A, 0x4B] {
        if let Some(d) = l.data(id) {
            print!(rt; " {id:02x}")?;
            print_octets(rt, "", d, d.len())?;
        }
    }
    Ok(())
}

fn run_store(rt: &impl Print, d: &[u8]) -> io::Result<()> {
    let [id, length, body @ ..] = d else {
        return Ok(());
    };
    let fresh = Reader::fresh(0);
    let l = latest::store(fresh.reader.latest, *id, body, usize::from(*length));
    print_flag(rt, latest::acceptable(l))?;
    print_latest(rt, &l)
}

// A record outside a frame: its mode, fed and outside.
fn head_of(d: &[u8]) -> Head {
    Head {
        mode: octets::byte_at(d, 0),
        place: 0,
        id: 0,
        c1: 0,
        c2: 0,
        len: 0,
        fed: numbers::u64_at(d, 1),
        accepted: 0,
        refused: 0,
        outside: numbers::u64_at(d, 9),
        pending: 0,
    }
}

fn run_question(
    rt: &impl Print,
    len: usize,
    offered: usize,
    d: &[u8],
    array: &[u8],
) -> io::Result<()> {
    let Some(lent) = array.get(..len) else {
        return Ok(());
    };
    let fresh = Reader::fresh(0);
    let asked = questions::question(head_of(d), fresh.reader.latest, lent, offered);
    print!(rt; " {}", refusals::code(&asked))
}

fn run_text(rt: &impl Print, from: usize, room: usize, d: &[u8], buf: &mut [u8]) -> io::Result<()> {
    let Some(lent) = buf.get_mut(..room) else {
        return Ok(());
    };
    print!(rt;
        " {} {}",
        hexlines::line_end(d, from),
        hexlines::parse(d, lent)
    )?;
    print_buffer(rt, buf, room)
}

fn run_refusals(rt: &impl Print) -> io::Result<()> {
    let all = [
        Refusal::Mode,
        Refusal::Record,
        Refusal::Full,
        Refusal::TooLong,
        Refusal::Cut,
        Refusal::SumMissing,
        Refusal::SumUnexpected,
        Refusal::EndMissing,
        Refusal::SumWrong,
        Refusal::Unlisted,
        Refusal::Length,
        Refusal::Range,
        Refusal::Buffer,
        Refusal::Unreliable,
        Refusal::Time,
        Refusal::NotFinite,
        Refusal::NoSatellite,
        Refusal::Date,
        Refusal::List,
    ];
    for refusal in all {
        print!(rt; " {}", refusal.number())?;
    }
    Ok(())
}

fn run_bits(rt: &impl Print) -> io::Result<()> {
    for n in [-128, -1, 0, 127] {
        print!(rt; " {}", numbers::int8_byte(n))?;
    }
    for n in [-32768, -1, 0, 32767] {
        print!(rt; " {}", numbers::int16_word(n))?;
    }
    Ok(())
}

fn run_set(rt: &impl Print, set: u64, place: u64, d: &[u8]) -> io::Result<()> {
    print_flag(rt, satellites::contains(set, place))?;
    print!(rt;
        " {} {}",
        satellites::insert(set, place),
        satellites::place(octets::byte_at(d, 0), octets::byte_at(d, 1))
    )
}

fn run_date(rt: &impl Print, d: &[u8]) -> io::Result<()> {
    let month = octets::byte_at(d, 1);
    let year = numbers::u16_at(d, 2);
    print_flag(rt, calendar::is_leap(year))?;
    print!(rt; " {}", calendar::days_in(month, year))?;
    print_flag(rt, calendar::is_date(octets::byte_at(d, 0), month, year))
}

fn run_filling(
    rt: &impl Print,
    call: u8,
    a: u64,
    b: u64,
    d: &[u8],
    buf: &mut [u8],
) -> io::Result<()> {
    match call {
        3 => run_put(rt, a as usize, b as usize, d, buf),
        8 => run_rows(rt, a, b as usize, d, buf),
        10 => run_question(rt, a as usize, b as usize, d, buf),
        _ => run_text(rt, a as usize, b as usize, d, buf),
    }
}

fn run(rt: &impl Print, call: u8, a: u64, b: u64, d: &[u8]) -> io::Result<()> {
    let mut buf = [0x5Au8; 1100];
    match call {
        1 => print_flag(
            rt,
            octets::within(a as usize, b as usize, numbers::u64_at(d, 0) as usize),
        ),
        2 => print!(rt; " {}", octets::byte_at(d, a as usize)),
        4 => run_numbers(rt, a as usize, d),
        5 => run_signed(rt, d),
        6 => run_stuffing(rt, a as usize, d),
        7 => run_sums(rt, d),
        9 => run_store(rt, d),
        11 => run_set(rt, a, b, d),
        13 => run_refusals(rt),
        14 => run_bits(rt),
        15 => run_date(rt, d),
        _ => run_filling(rt, call, a, b, d, &mut buf),
    }
}

fn call(rt: &impl Print, s: &[u8]) -> io::Result<()> {
    let Some((head, d)) = s.split_at_checked(17) else {
        return Ok(());
    };
    let code = octets::byte_at(head, 0);
    print!(rt; "{code:02x}")?;
    run(
        rt,
        code,
        numbers::u64_at(head, 1),
        numbers::u64_at(head, 9),
        d,
    )?;
    println!(rt)
}

fn show_published(rt: &impl Print) -> io::Result<()> {
    println!(rt; "{:04x}", checksum::after_slice(0, b"123456789"))?;
    for b in 0..=u8::MAX {
        println!(rt;
            "{:04x} {:04x}",
            checksum::after_slice(0, &[b]),
            checksum::entry(b)
        )?;
    }
    Ok(())
}

fn main(rt: HostRuntime) -> io::Result<()> {
    let rt = Regardless(rt);
    show_published(&rt)?;
    let mut input = [0u8; 65536];
    let mut bytes = [0u8; 256];
    answering::each_call(&rt, &mut input, &mut bytes, |s| call(&rt, s))
}
