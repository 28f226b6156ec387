// 23h, a zone or none, as fields and as data.
#![tactic(auto)]

ghost use Rattle.std.specs.Prelude.{◌≡◌, refl};
ghost use Rattle.rows.specs.Layout.{words};
ghost use Rattle.fields_23.specs.Fields.{fields_of, all_rows, data_of, decoded_of};

use encoding::{Decoded, Fields};
use refusals::Refusal;

// 23h: the zone, if the count of bytes is 2.
#[derive(Clone, Copy, Debug, PartialEq, Eq)]
pub struct Zone {
    pub count: usize,
    pub hours: i8,
    pub minutes: i8,
}

// A third row stands for any more bytes than a zone has.
const WIDTHS: [usize; 3] = [1, 1, 1];

fn words_of(f: Zone) -> [u64; 3]
    ensures { result ≡ words (all_rows f) }
{
    [
        u64::from(numbers::int8_byte(f.hours)),
        u64::from(numbers::int8_byte(f.minutes)),
        0,
    ]
}

impl Fields for Zone {
    ghost ID = { 0x23 };

    ghost fields_of = { fields_of };

    ghost data_of = { data_of };

    const ID: u8 = 0x23;

    fn read(body: &[u8]) -> Zone {
        Zone {
            count: body.len(),
            hours: numbers::int8s_at(body, 0),
            minutes: numbers::int8s_at(body, 1),
        }
    }

    fn encode(self, buf: &mut [u8]) -> Result<usize, Refusal> {
        let count = self.count.min(3);
        rows::encode(Zone::ID, &words_of(self), &WIDTHS[..count], buf)
    }
}

impl Decoded for Zone {
    ghost decoded_of = { decoded_of };

    ghost decodes = { λ d. refl };
}
