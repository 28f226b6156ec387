// EBh, GLONASS time scale parameters, as fields and as data.
// FP fields are kept as their bits.
#![tactic(auto)]

ghost use Rattle.std.specs.Prelude.{◌≡◌, refl};
ghost use Rattle.rows.specs.Layout.{words};
ghost use Rattle.fields_eb.specs.Fields.{fields_of, rows_of, data_of, decoded_of};

use encoding::{Decoded, Fields};
use refusals::Refusal;

// EBh: GLONASS time scale parameters (000, Table 57).
#[derive(Clone, Copy, Debug, PartialEq, Eq)]
pub struct GlonassTime {
    pub tau_c: u64, // from GLONASS time to UTC(SU)
    pub tau_gps: u32, // the fraction of GPS less GLONASS time
    pub na: u16, // N^A, the day of the four years
    pub n4: u8, // the four-year period
    pub reliable: u8, // of the fields above: not 0 where reliable
    pub kp: u8, // the expected second correction
    pub b1: u32, // UT1 less UTC(SU)
    pub b2: u32, // its change in a day
    pub ut1_reliable: u8, // of kp, b1 and b2: not 0 where reliable
}

const WIDTHS: [usize; 9] = [8, 4, 2, 1, 1, 1, 4, 4, 1];

fn words_of(f: GlonassTime) -> [u64; 9]
    ensures { result ≡ words (rows_of f) }
{
    [
        f.tau_c,
        u64::from(f.tau_gps),
        u64::from(f.na),
        u64::from(f.n4),
        u64::from(f.reliable),
        u64::from(f.kp),
        u64::from(f.b1),
        u64::from(f.b2),
        u64::from(f.ut1_reliable),
    ]
}

impl Fields for GlonassTime {
    ghost ID = { 0xEB };

    ghost fields_of = { fields_of };

    ghost data_of = { data_of };

    const ID: u8 = 0xEB;

    fn read(body: &[u8]) -> GlonassTime {
        GlonassTime {
            tau_c: numbers::u64_at(body, 0),
            tau_gps: numbers::u32_at(body, 8),
            na: numbers::u16_at(body, 12),
            n4: numbers::int8u_at(body, 14),
            reliable: numbers::int8u_at(body, 15),
            kp: numbers::int8u_at(body, 16),
            b1: numbers::u32_at(body, 17),
            b2: numbers::u32_at(body, 21),
            ut1_reliable: numbers::int8u_at(body, 25),
        }
    }

    fn encode(self, buf: &mut [u8]) -> Result<usize, Refusal> {
        rows::encode(GlonassTime::ID, &words_of(self), &WIDTHS, buf)
    }
}

impl Decoded for GlonassTime {
    ghost decoded_of = { decoded_of };

    ghost decodes = { λ d. refl };
}
