// 4Bh, GPS, GLONASS and UTC time scales, as fields and as data.
// FP fields are kept as their bits.
#![tactic(auto)]

ghost use Rattle.std.specs.Prelude.{◌≡◌, refl};
ghost use Rattle.rows.specs.Layout.{words};
ghost use Rattle.fields_4b.specs.Fields.{fields_of, rows_of, data_of, decoded_of};

use encoding::{Decoded, Fields};
use refusals::Refusal;

// 4Bh: GPS, GLONASS and UTC time scales (002, Table 48).
#[derive(Clone, Copy, Debug, PartialEq, Eq)]
pub struct Scales {
    pub a0: u64,
    pub a1: u64,
    pub tot: u32,
    pub wnt: u16,
    pub dt_ls: i16,
    pub wn_lsf: u16,
    pub dn: u16,
    pub dt_lsf: i16,
    pub gps_reliable: u8, // 255: GPS and UTC are reliable
    pub na: u16, // N^A, the day of tau_c
    pub tau_c: u64, // from GLONASS time to UTC(SU)
    pub glonass_reliable: u8, // 255: GLONASS and UTC(SU) are reliable
}

const WIDTHS: [usize; 12] = [8, 8, 4, 2, 2, 2, 2, 2, 1, 2, 8, 1];

fn words_of(f: Scales) -> [u64; 12]
    ensures { result ≡ words (rows_of f) }
{
    [
        f.a0,
        f.a1,
        u64::from(f.tot),
        u64::from(f.wnt),
        u64::from(numbers::int16_word(f.dt_ls)),
        u64::from(f.wn_lsf),
        u64::from(f.dn),
        u64::from(numbers::int16_word(f.dt_lsf)),
        u64::from(f.gps_reliable),
        u64::from(f.na),
        f.tau_c,
        u64::from(f.glonass_reliable),
    ]
}

impl Fields for Scales {
    ghost ID = { 0x4B };

    ghost fields_of = { fields_of };

    ghost data_of = { data_of };

    const ID: u8 = 0x4B;

    fn read(body: &[u8]) -> Scales {
        Scales {
            a0: numbers::u64_at(body, 0),
            a1: numbers::u64_at(body, 8),
            tot: numbers::u32_at(body, 16),
            wnt: numbers::u16_at(body, 20),
            dt_ls: numbers::int16_of(numbers::u16_at(body, 22)),
            wn_lsf: numbers::u16_at(body, 24),
            dn: numbers::u16_at(body, 26),
            dt_lsf: numbers::int16_of(numbers::u16_at(body, 28)),
            gps_reliable: numbers::int8u_at(body, 30),
            na: numbers::u16_at(body, 31),
            tau_c: numbers::u64_at(body, 33),
            glonass_reliable: numbers::int8u_at(body, 41),
        }
    }

    fn encode(self, buf: &mut [u8]) -> Result<usize, Refusal> {
        rows::encode(Scales::ID, &words_of(self), &WIDTHS, buf)
    }
}

impl Decoded for Scales {
    ghost decoded_of = { decoded_of };

    ghost decodes = { λ d. refl };
}
