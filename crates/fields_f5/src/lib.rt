// F5h, raw measurements, as fields and as data.
// FP fields are kept as their bits; no value is refused.
#![tactic(auto)]

ghost use Rattle.std.specs.Prelude.{◌≡◌, ◌++◌, ◌+◌, ◌*◌, ◌≤◌, take};
ghost use Rattle.refusals.specs.Numbers.{numbered};
ghost use Rattle.octets.specs.Delivery.{written, written_of, filled_of};
ghost use Rattle.rows.specs.Layout.{words};
ghost use Rattle.std.proofs.Common.{rules};
ghost use Rattle.encoding.specs.Entries.{entries_data};
ghost use Rattle.fields_f5.specs.Fields.{header_of, rows_of, header_data, entry_of, entry_data, blank, channels, data_of, decoded_of, refusal_of};

use encoding::Entry;
use refusals::Refusal;

// The header of F5h (000, Table 59).
#[derive(Clone, Copy, Debug, PartialEq, Eq)]
pub struct Header {
    pub time: u64, // of the measurements, ms, FP64
    pub week: u16,
    pub gps_shift: u64, // of GPS from UTC, ms, FP64
    pub glonass_shift: u64, // of GLONASS from UTC, ms, FP64
    pub correction: i8, // of the receiver's time scale, ms
}

// A channel of F5h: what it receives, and the rest of its measurements as they are.
#[derive(Clone, Copy, Debug, PartialEq, Eq)]
pub struct Channel {
    pub signal_type: u8,
    pub number: u8,
    pub carrier: u8,
    pub level: u8,
    pub rest: [u8; 26],
}

// The fields of F5h: the first n channels count.
#[derive(Clone, Copy, Debug, PartialEq, Eq)]
pub struct Measurements {
    pub header: Header,
    pub n: usize,
    pub channels: [Channel; 32],
}

fn read_header(top: &[u8]) -> Header
    ensures { result ≡ header_of top.now }
{
    Header {
        time: numbers::u64_at(top, 0),
        week: numbers::u16_at(top, 8),
        gps_shift: numbers::u64_at(top, 10),
        glonass_shift: numbers::u64_at(top, 18),
        correction: numbers::int8s_at(top, 26),
    }
}

impl Entry<30> for Channel {
    ghost series = { channels };

    ghost BLANK = { blank };

    const BLANK: Channel = Channel {
        signal_type: 0,
        number: 0,
        carrier: 0,
        level: 0,
        rest: [0; 26],
    };

    fn from_bytes(e: &[u8; 30]) -> Channel
        ensures { result ≡ entry_of e.now }
    {
        let [signal_type, number, carrier, level, ..] = *e;
        let mut rest = [0u8; 26];
        rest.copy_from_slice(&e[4..]);
        Channel {
            signal_type,
            number,
            carrier,
            level,
            rest,
        }
    }

    fn to_bytes(self) -> [u8; 30]
        ensures { result ≡ entry_data self }
    {
        let mut d = [0u8; 30];
        d[..4].copy_from_slice(&[self.signal_type, self.number, self.carrier, self.level]);
        d[4..].copy_from_slice(&self.rest);
        d
    }

    ghost wide = { Prim.search rules };

    ghost empty = { Prim.search rules };
}

// The fields of F5h data, where it is acceptable.
pub fn decode_f5(body: &[u8]) -> Result<Measurements, Refusal>
    ensures { numbered result ≡ decoded_of body.now }
{
    kinds::content(0xF5, body)?;
    let (top, rest) = body.split_at(27);
    Ok(Measurements {
        header: read_header(top),
        n: rest.len() / 30,
        channels: encoding::read_entries(rest),
    })
}

const WIDTHS_F5: [usize; 5] = [8, 2, 8, 8, 1];

fn words_f5(h: Header) -> [u64; 5]
    ensures { result ≡ words (rows_of h) }
{
    [
        h.time,
        u64::from(h.week),
        h.gps_shift,
        h.glonass_shift,
        u64::from(numbers::int8_byte(h.correction)),
    ]
}

// The bytes of the header, which alone is a message of no channels.
fn header_data(h: Header) -> [u8; 27]
    ensures { result ≡ header_data h }
{
    let mut top = [0u8; 27];
    let _ = rows::encode(0xF5, &words_f5(h), &WIDTHS_F5, &mut top);
    top
}

// The data of the header and the first n channels, at the start of an array of the longest data.
fn all_data(h: Header, entries: &[Channel; 32], n: usize) -> [u8; 987]
    requires { n ≤ 32 }
    ensures { take (27 + 30 * n) result ≡ header_data h ++ entries_data channels entries.now n }
{
    let mut all = [0u8; 987];
    let (top, rest) = all.split_at_mut(27);
    top.copy_from_slice(&header_data(h));
    encoding::lay_out(&entries[..n], rest);
    all
}

// The data of F5h from its fields. More than 32 channels are refused; those past n are ignored.
pub fn encode_f5(f: Measurements, buf: &mut [u8]) -> Result<usize, Refusal>
    ensures { (written result ≡ written_of (refusal_of f) (data_of f) buf.old)
        × (buf.new ≡ filled_of (refusal_of f) (data_of f) buf.old) }
{
    let too_many = 32 < f.n;
    if too_many {
        return Err(Refusal::Length);
    }
    let all = all_data(f.header, &f.channels, f.n);
    octets::deliver(Ok(()), &all[..27 + 30 * f.n], buf)
}
