// 47h, the use of each satellite, as fields and as data.
#![tactic(auto)]

ghost use Rattle.std.specs.Prelude.{◌≡◌, ◌<◌, refl};
ghost use Rattle.std.proofs.Common.{rules};
ghost use Rattle.encoding.specs.Entries.{entry_slice};
ghost use Rattle.fields_47.specs.Fields.{entry_of, entry_data, blank, uses, fields_of, data_of, decoded_of};

use encoding::{Decoded, Entry, Fields};
use refusals::Refusal;
use std::array;

// A triple of 47h: a satellite, and whether it is used.
#[derive(Clone, Copy, Debug, PartialEq, Eq)]
pub struct Use {
    pub system: u8,
    pub number: u8,
    pub used: u8,
}

// The fields of 47h.
#[derive(Clone, Copy, Debug, PartialEq, Eq)]
pub struct Uses {
    pub triples: [Use; 56],
}

// The triple at an index.
fn triple_at(body: &[u8], i: usize) -> Use
    requires { i < 56 }
    ensures { result ≡ entry_of (entry_slice uses body.now i) }
{
    let at = 3 * i;
    Use {
        system: octets::byte_at(body, at),
        number: octets::byte_at(body, at + 1),
        used: octets::byte_at(body, at + 2),
    }
}

impl Entry<3> for Use {
    ghost series = { uses };

    ghost BLANK = { blank };

    const BLANK: Use = Use {
        system: 0,
        number: 0,
        used: 0,
    };

    fn from_bytes(e: &[u8; 3]) -> Use
        ensures { result ≡ entry_of e.now }
    {
        let [system, number, used] = *e;
        Use {
            system,
            number,
            used,
        }
    }

    fn to_bytes(self) -> [u8; 3]
        ensures { result ≡ entry_data self }
    {
        [self.system, self.number, self.used]
    }

    ghost wide = { Prim.search rules };

    ghost empty = { Prim.search rules };
}

impl Fields for Uses {
    ghost ID = { 0x47 };

    ghost fields_of = { fields_of };

    ghost data_of = { data_of };

    const ID: u8 = 0x47;

    fn read(body: &[u8]) -> Uses {
        Uses {
            triples: array::from_fn(|i| triple_at(body, i)),
        }
    }

    fn encode(self, buf: &mut [u8]) -> Result<usize, Refusal> {
        let mut all = [0u8; 168];
        encoding::lay_out(&self.triples, &mut all);
        encoding::deliver(Uses::ID, &all, buf)
    }
}

impl Decoded for Uses {
    ghost decoded_of = { decoded_of };

    ghost decodes = { λ d. refl };
}
