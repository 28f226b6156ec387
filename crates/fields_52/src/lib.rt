// 52h, the visible satellites, as fields and as data.
#![tactic(auto)]

ghost use Rattle.std.specs.Prelude.{◌≡◌, refl};
ghost use Rattle.std.proofs.Common.{rules};
ghost use Rattle.fields_52.specs.Fields.{entry_of, entry_data, blank, visibles, read_of, data_of, decoded_of};

use encoding::{Decoded, Fields};
use refusals::Refusal;

// An entry of 52h: a satellite, and where it stands.
#[derive(Clone, Copy, Debug, PartialEq, Eq)]
pub struct Entry {
    pub system: u8,
    pub number: u8,
    pub carrier: i8,
    pub elevation: u8,
    pub azimuth: u16,
    pub signal: u8,
}

// The fields of 52h: the first n entries count.
#[derive(Clone, Copy, Debug, PartialEq, Eq)]
pub struct Visible {
    pub n: usize,
    pub entries: [Entry; 75],
}

impl encoding::Entry<7> for Entry {
    ghost series = { visibles };

    ghost BLANK = { blank };

    const BLANK: Entry = Entry {
        system: 0,
        number: 0,
        carrier: 0,
        elevation: 0,
        azimuth: 0,
        signal: 0,
    };

    fn from_bytes(e: &[u8; 7]) -> Entry
        ensures { result ≡ entry_of e.now }
    {
        let [system, number, carrier, elevation, low, high, signal] = *e;
        Entry {
            system,
            number,
            carrier: numbers::int8_of(carrier),
            elevation,
            azimuth: u16::from_le_bytes([low, high]),
            signal,
        }
    }

    fn to_bytes(self) -> [u8; 7]
        ensures { result ≡ entry_data self }
    {
        let [low, high] = self.azimuth.to_le_bytes();
        [
            self.system,
            self.number,
            numbers::int8_byte(self.carrier),
            self.elevation,
            low,
            high,
            self.signal,
        ]
    }

    ghost wide = { Prim.search rules };

    ghost empty = { Prim.search rules };
}

impl Fields for Visible {
    ghost ID = { 0x52 };

    ghost fields_of = { read_of };

    ghost data_of = { data_of };

    const ID: u8 = 0x52;

    fn read(body: &[u8]) -> Visible {
        let n = (body.len() / 7).min(75);
        Visible {
            n,
            entries: encoding::read_entries(body),
        }
    }

    // More than 75 entries are refused; those past n are ignored.
    fn encode(self, buf: &mut [u8]) -> Result<usize, Refusal> {
        let too_many = 75 < self.n;
        if too_many {
            return Err(Refusal::Length);
        }
        let mut all = [0u8; 525];
        encoding::lay_out(&self.entries[..self.n], &mut all);
        encoding::deliver(Visible::ID, &all[..7 * self.n], buf)
    }
}

impl Decoded for Visible {
    ghost decoded_of = { decoded_of };

    ghost decodes = { λ d. refl };
}
