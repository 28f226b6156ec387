// Reads calls as hexadecimal text, a line each, and prints how the kinds with entries are decoded and encoded, what lookup finds, and
// words of satellites. A line that starts with # is printed as it is. Any other is one of
// - 47, 52 or F5, an index, a field's number, a value, room in two bytes, low byte first, data
// - 00, system, number, three bytes without meaning, data of 52h
// - 01, three bytes without meaning, room in two bytes, data of 47h
// - 02, three bytes without meaning, room in two bytes, a word of satellites in eight bytes, low byte first
//
// The data are decoded; the field of this number in the entry at this index gets the value (0: none; 1 of 52h and F5h: the number of
// entries; 8 to 12 of F5h: the header's), and the fields are encoded into so many bytes of a buffer of 5A. Such a line has the refusal
// of the data and, where there is none, the header of F5h (FP64 as hexadecimal bits), the number of entries and each entry, in F5h with
// its 26 bytes as they are; then the refusal and the length of the encoding, and last the buffer up to four bytes past the room. A line
// of lookup has the index, none, or the refusal. A line of 01 has the refusal, the word and the count of the data and, where it is not
// refused, the refusal and the length of writing its word into the room; one of 02 has those of writing the word and, where it is not
// refused, the refusal, the word and the count of the 168 bytes written. Both end with the buffer.
#![tactic(auto)]

use answering::{Regardless, print_octets, print_written};
use encoding::Fields;
use fields_47::Uses;
use fields_52::Visible;
use fields_f5::{Channel, Header, Measurements};
use in_use::InUse;
use refusals::Refusal;
use std::io;

// Fields that are printed, changed in the entry at an index, and encoded.
trait Tried: Copy {
    fn show(&self, rt: &impl Print) -> io::Result<()>;

    fn changed(self, at: usize, which: u8, value: u8) -> Self;

    fn put(self, buf: &mut [u8]) -> Result<usize, Refusal>;
}

// Shows what was decoded, and encodes it with a field changed.
fn run_fields<F: Tried>(
    rt: &impl Print,
    decoded: Result<F, Refusal>,
    at: usize,
    which: u8,
    value: u8,
    buf: &mut [u8],
) -> io::Result<()> {
    match decoded {
        Ok(f) => {
            print!(rt; " 0")?;
            f.show(rt)?;
            print_written(rt, &f.changed(at, which, value).put(buf))
        }
        Err(refusal) => print!(rt; " {}", refusal.number()),
    }
}

impl Tried for Uses {
    fn show(&self, rt: &impl Print) -> io::Result<()> {
        for u in &self.triples {
            print!(rt; ", {} {} {}", u.system, u.number, u.used)?;
        }
        Ok(())
    }

    fn changed(mut self, at: usize, which: u8, value: u8) -> Uses {
        if let Some(u) = self.triples.get_mut(at) {
            match which {
                1 => u.system = value,
                2 => u.number = value,
                3 => u.used = value,
                _ => {}
            }
        }
        self
    }

    fn put(self, buf: &mut [u8]) -> Result<usize, Refusal> {
        self.encode(buf)
    }
}

impl Tried for Visible {
    fn show(&self, rt: &impl Print) -> io::Result<()> {
        print!(rt; " {}", self.n)?;
        for e in self.entries.iter().take(self.n) {
            print!(rt; ", {} {} {}", e.system, e.number, e.carrier)?;
            print!(rt; " {} {} {}", e.elevation, e.azimuth, e.signal)?;
        }
        Ok(())
    }

    // An azimuth is 200 more than the value, so that those around 359 can be had.
    fn changed(mut self, at: usize, which: u8, value: u8) -> Visible {
        if which == 1 {
            self.n = usize::from(value);
        } else if let Some(e) = self.entries.get_mut(at) {
            match which {
                2 => e.system = value,
                3 => e.number = value,
                4 => e.carrier = value.cast_signed(),
                5 => e.elevation = value,
                6 => e.azimuth = 200 + u16::from(value),
                7 => e.signal = value,
                _ => {}
            }
        }
        self
    }

    fn put(self, buf: &mut [u8]) -> Result<usize, Refusal> {
        self.encode(buf)
    }
}

fn show_header(rt: &impl Print, h: &Header) -> io::Result<()> {
    print!(rt; " {:016x} {} {:016x}", h.time, h.week, h.gps_shift)?;
    print!(rt; " {:016x} {}", h.glonass_shift, h.correction)
}

fn show_channel(rt: &impl Print, c: &Channel) -> io::Result<()> {
    print!(rt;
        ", {} {} {} {} ",
        c.signal_type, c.number, c.carrier, c.level
    )?;
    print_octets(rt, "", &c.rest, 26)
}

fn change_header(h: &mut Header, which: u8, value: u8) {
    match which {
        8 => h.time = u64::from(value),
        9 => h.week = u16::from(value),
        10 => h.gps_shift = u64::from(value),
        11 => h.glonass_shift = u64::from(value),
        12 => h.correction = value.cast_signed(),
        _ => {}
    }
}

// Of the 26 bytes the first (6) or the last (7).
fn change_channel(c: &mut Channel, which: u8, value: u8) {
    match which {
        2 => c.signal_type = value,
        3 => c.number = value,
        4 => c.carrier = value,
        5 => c.level = value,
        6 => c.rest[0] = value,
        7 => c.rest[25] = value,
        _ => {}
    }
}

impl Tried for Measurements {
    fn show(&self, rt: &impl Print) -> io::Result<()> {
        show_header(rt, &self.header)?;
        print!(rt; " {}", self.n)?;
        for c in self.channels.iter().take(self.n) {
            show_channel(rt, c)?;
        }
        Ok(())
    }

    fn changed(mut self, at: usize, which: u8, value: u8) -> Measurements {
        if which == 1 {
            self.n = usize::from(value);
        }
        if let Some(c) = self.channels.get_mut(at) {
            change_channel(c, which, value);
        }
        change_header(&mut self.header, which, value);
        self
    }

    fn put(self, buf: &mut [u8]) -> Result<usize, Refusal> {
        fields_f5::encode_f5(self, buf)
    }
}

fn run_lookup(rt: &impl Print, d: &[u8], system: u8, number: u8) -> io::Result<()> {
    match lookup::find_satellite(d, system, number) {
        Ok(Some(i)) => print!(rt; " {i}"),
        Ok(None) => print!(rt; " none"),
        Err(refusal) => print!(rt; " refused {}", refusal.number()),
    }
}

fn show_in_use(rt: &impl Print, r: &Result<InUse, Refusal>) -> io::Result<()> {
    match r {
        Ok(r) => print!(rt; " 0 {:016x} {}", r.word, r.count),
        Err(refusal) => print!(rt; " {} {:016x} 0", refusal.number(), 0),
    }
}

fn run_word(rt: &impl Print, d: &[u8], buf: &mut [u8]) -> io::Result<()> {
    let r = in_use::word(d);
    show_in_use(rt, &r)?;
    match r {
        Ok(r) => print_written(rt, &in_use::write(r.word, buf)),
        Err(_) => Ok(()),
    }
}

// Of the first 168 bytes, which are there where a word was written.
fn run_write(rt: &impl Print, d: &[u8], buf: &mut [u8]) -> io::Result<()> {
    let written = in_use::write(numbers::u64_at(d, 0), buf);
    print_written(rt, &written)?;
    match buf.get(..168) {
        Some(word) if written.is_ok() => show_in_use(rt, &in_use::word(word)),
        _ => Ok(()),
    }
}

fn run(rt: &impl Print, s: &[u8], buf: &mut [u8]) -> io::Result<()> {
    let [kind, first, which, value, _, _, d @ ..] = s else {
        return Ok(());
    };
    let at = usize::from(*first);
    match *kind {
        0x47 => run_fields(rt, encoding::decode::<Uses>(d), at, *which, *value, buf),
        0x52 => run_fields(rt, encoding::decode::<Visible>(d), at, *which, *value, buf),
        0xF5 => run_fields(rt, fields_f5::decode_f5(d), at, *which, *value, buf),
        1 => run_word(rt, d, buf),
        2 => run_write(rt, d, buf),
        _ => run_lookup(rt, d, *first, *which),
    }
}

fn call(rt: &impl Print, s: &[u8]) -> io::Result<()> {
    let room = usize::from(numbers::u16_at(s, 4));
    let mut buf = [0x5Au8; 1024];
    print_octets(rt, "", s, 3)?;
    if let Some(lent) = buf.get_mut(..room) {
        run(rt, s, lent)?;
        print!(rt; " ")?;
        print_octets(rt, "", &buf, room + 4)?;
    }
    println!(rt)
}

fn main(rt: HostRuntime) -> io::Result<()> {
    let rt = Regardless(rt);
    let mut input = [0u8; 65536];
    let mut bytes = [0u8; 1024];
    answering::each_call(&rt, &mut input, &mut bytes, |s| call(&rt, s))
}
