// 4Ah, ionosphere parameters, as fields and as data.
// FP fields are kept as their bits.
#![tactic(auto)]

ghost use Rattle.std.specs.Prelude.{◌≡◌, refl};
ghost use Rattle.rows.specs.Layout.{words};
ghost use Rattle.fields_4a.specs.Fields.{fields_of, rows_of, data_of, decoded_of};

use encoding::{Decoded, Fields};
use refusals::Refusal;

// 4Ah: ionosphere parameters (000, Table 40).
#[derive(Clone, Copy, Debug, PartialEq, Eq)]
pub struct Ionosphere {
    pub alpha0: u32,
    pub alpha1: u32,
    pub alpha2: u32,
    pub alpha3: u32,
    pub beta0: u32,
    pub beta1: u32,
    pub beta2: u32,
    pub beta3: u32,
    pub reliable: u8, // 255: the data is reliable
}

const WIDTHS: [usize; 9] = [4, 4, 4, 4, 4, 4, 4, 4, 1];

fn words_of(f: Ionosphere) -> [u64; 9]
    ensures { result ≡ words (rows_of f) }
{
    [
        u64::from(f.alpha0),
        u64::from(f.alpha1),
        u64::from(f.alpha2),
        u64::from(f.alpha3),
        u64::from(f.beta0),
        u64::from(f.beta1),
        u64::from(f.beta2),
        u64::from(f.beta3),
        u64::from(f.reliable),
    ]
}

impl Fields for Ionosphere {
    ghost ID = { 0x4A };

    ghost fields_of = { fields_of };

    ghost data_of = { data_of };

    const ID: u8 = 0x4A;

    fn read(body: &[u8]) -> Ionosphere {
        Ionosphere {
            alpha0: numbers::u32_at(body, 0),
            alpha1: numbers::u32_at(body, 4),
            alpha2: numbers::u32_at(body, 8),
            alpha3: numbers::u32_at(body, 12),
            beta0: numbers::u32_at(body, 16),
            beta1: numbers::u32_at(body, 20),
            beta2: numbers::u32_at(body, 24),
            beta3: numbers::u32_at(body, 28),
            reliable: numbers::int8u_at(body, 32),
        }
    }

    fn encode(self, buf: &mut [u8]) -> Result<usize, Refusal> {
        rows::encode(Ionosphere::ID, &words_of(self), &WIDTHS, buf)
    }
}

impl Decoded for Ionosphere {
    ghost decoded_of = { decoded_of };

    ghost decodes = { λ d. refl };
}
