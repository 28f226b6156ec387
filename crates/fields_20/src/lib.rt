// 20h, a satellite, as fields and as data.
#![tactic(auto)]

ghost use Rattle.std.specs.Prelude.{◌≡◌, refl};
ghost use Rattle.rows.specs.Layout.{words};
ghost use Rattle.fields_20.specs.Fields.{fields_of, rows_of, data_of, decoded_of};

use encoding::{Decoded, Fields};
use refusals::Refusal;

// 20h: a satellite of a system.
#[derive(Clone, Copy, Debug, PartialEq, Eq)]
pub struct Satellite {
    pub system: u8,
    pub number: u8,
}

const WIDTHS: [usize; 2] = [1, 1];

fn words_of(f: Satellite) -> [u64; 2]
    ensures { result ≡ words (rows_of f) }
{
    [u64::from(f.system), u64::from(f.number)]
}

impl Fields for Satellite {
    ghost ID = { 0x20 };

    ghost fields_of = { fields_of };

    ghost data_of = { data_of };

    const ID: u8 = 0x20;

    fn read(body: &[u8]) -> Satellite {
        Satellite {
            system: numbers::int8u_at(body, 0),
            number: numbers::int8u_at(body, 1),
        }
    }

    fn encode(self, buf: &mut [u8]) -> Result<usize, Refusal> {
        rows::encode(Satellite::ID, &words_of(self), &WIDTHS, buf)
    }
}

impl Decoded for Satellite {
    ghost decoded_of = { decoded_of };

    ghost decodes = { λ d. refl };
}
