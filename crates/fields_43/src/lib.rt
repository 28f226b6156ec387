// 43h, a result byte, as fields and as data.
#![tactic(auto)]

ghost use Rattle.std.specs.Prelude.{◌≡◌, refl};
ghost use Rattle.rows.specs.Layout.{words};
ghost use Rattle.fields_43.specs.Fields.{result_of, result_byte, fields_of, rows_of, data_of, decoded_of};

use encoding::{Decoded, Fields};
use refusals::Refusal;

// 43h: the result byte's parts.
#[derive(Clone, Copy, Debug, PartialEq, Eq)]
pub struct Outcome {
    pub antenna: u8,
    pub glonass: bool,
    pub gps: bool,
    pub low: u8,
}

// The parts of a result byte.
fn result_of(b: u8) -> Outcome
    ensures { result ≡ result_of b }
{
    Outcome {
        antenna: (b >> 6) & 3,
        glonass: (b >> 5) & 1 == 1,
        gps: (b >> 4) & 1 == 1,
        low: b & 0x0F,
    }
}

// The result byte of its parts. Where it has no room for them they are out of range, and so is an antenna of 2.
fn result_byte(f: Outcome) -> u8
    ensures { result ≡ result_byte f }
{
    if f.antenna <= 3 && f.low <= 15 {
        (f.antenna << 6) | (u8::from(f.glonass) << 5) | (u8::from(f.gps) << 4) | f.low
    } else {
        2 << 6
    }
}

const WIDTHS: [usize; 6] = [1, 1, 1, 1, 1, 1];

fn words_of(f: Outcome) -> [u64; 6]
    ensures { result ≡ words (rows_of f) }
{
    [2, u64::from(result_byte(f)), 0, 0, 0, 0]
}

impl Fields for Outcome {
    ghost ID = { 0x43 };

    ghost fields_of = { fields_of };

    ghost data_of = { data_of };

    const ID: u8 = 0x43;

    fn read(body: &[u8]) -> Outcome {
        result_of(numbers::int8u_at(body, 1))
    }

    fn encode(self, buf: &mut [u8]) -> Result<usize, Refusal> {
        rows::encode(Outcome::ID, &words_of(self), &WIDTHS, buf)
    }
}

impl Decoded for Outcome {
    ghost decoded_of = { decoded_of };

    ghost decodes = { λ d. refl };
}
