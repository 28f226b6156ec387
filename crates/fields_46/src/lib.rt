// 46h, time, date and zone, as fields and as data.
#![tactic(auto)]

ghost use Rattle.std.specs.Prelude.{◌≡◌, refl};
ghost use Rattle.rows.specs.Layout.{words};
ghost use Rattle.fields_46.specs.Fields.{fields_of, rows_of, data_of, decoded_of};

use encoding::{Decoded, Fields};
use refusals::Refusal;

// 46h: time, date and zone (000, Table 37).
#[derive(Clone, Copy, Debug, PartialEq, Eq)]
pub struct Time {
    pub second: u32, // from the beginning of the week
    pub day: u8,
    pub month: u8,
    pub year: u16,
    pub hours: i8, // of the zone, as the minutes
    pub minutes: i8,
}

const WIDTHS: [usize; 6] = [4, 1, 1, 2, 1, 1];

fn words_of(f: Time) -> [u64; 6]
    ensures { result ≡ words (rows_of f) }
{
    [
        u64::from(f.second),
        u64::from(f.day),
        u64::from(f.month),
        u64::from(f.year),
        u64::from(numbers::int8_byte(f.hours)),
        u64::from(numbers::int8_byte(f.minutes)),
    ]
}

impl Fields for Time {
    ghost ID = { 0x46 };

    ghost fields_of = { fields_of };

    ghost data_of = { data_of };

    const ID: u8 = 0x46;

    fn read(body: &[u8]) -> Time {
        Time {
            second: numbers::u32_at(body, 0),
            day: numbers::int8u_at(body, 4),
            month: numbers::int8u_at(body, 5),
            year: numbers::u16_at(body, 6),
            hours: numbers::int8s_at(body, 8),
            minutes: numbers::int8s_at(body, 9),
        }
    }

    fn encode(self, buf: &mut [u8]) -> Result<usize, Refusal> {
        rows::encode(Time::ID, &words_of(self), &WIDTHS, buf)
    }
}

impl Decoded for Time {
    ghost decoded_of = { decoded_of };

    ghost decodes = { λ d. refl };
}
