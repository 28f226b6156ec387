// 49h, the ephemeris of a satellite, as fields and as data.
// FP fields are kept as their bits.
#![tactic(auto)]

ghost use Rattle.std.specs.Prelude.{◌≡◌, refl};
ghost use Rattle.rows.specs.Layout.{words};
ghost use Rattle.fields_49.specs.Fields.{fields_of_gps, rows_of_gps, fields_of_glonass, rows_of_glonass, fields_of, data_of, decoded_of};

use encoding::{Decoded, Fields};
use refusals::Refusal;

// 49h: ephemeris of a GPS satellite, first byte 1 (000, Table 39).
#[derive(Clone, Copy, Debug, PartialEq, Eq)]
pub struct Gps {
    pub prn: u8, // the satellite
    pub crs: u32,
    pub delta_n: u32,
    pub m0: u64,
    pub cuc: u32,
    pub e: u64,
    pub cus: u32,
    pub sqrt_a: u64,
    pub toe: u64,
    pub cic: u32,
    pub omega0: u64,
    pub cis: u32,
    pub i0: u64,
    pub crc: u32,
    pub omega: u64,
    pub omega_dot: u64,
    pub idot: u64,
    pub tgd: u32,
    pub toc: u64,
    pub af2: u32,
    pub af1: u32,
    pub af0: u32,
    pub ura: u16,
    pub iode: u16,
}

// 49h: ephemeris of a GLONASS satellite, first byte 2 (000, Table 39).
#[derive(Clone, Copy, Debug, PartialEq, Eq)]
pub struct Glonass {
    pub number: u8, // n^A, the satellite; 0: unknown
    pub carrier: i8, // H_n^A
    pub x: u64, // coordinates
    pub y: u64,
    pub z: u64,
    pub vx: u64, // speeds
    pub vy: u64,
    pub vz: u64,
    pub ax: u64, // accelerations
    pub ay: u64,
    pub az: u64,
    pub tb: u64, // the time in the day
    pub gamma: u32,
    pub tau: u32,
    pub age: u16, // E_n
}

// The fields of 49h. The first byte, the system, is none of them.
#[derive(Clone, Copy, Debug, PartialEq, Eq)]
pub enum Ephemeris {
    Gps(Gps),
    Glonass(Glonass),
}

fn read_gps(body: &[u8]) -> Gps
    ensures { result ≡ fields_of_gps body.now }
{
    Gps {
        prn: numbers::int8u_at(body, 1),
        crs: numbers::u32_at(body, 2),
        delta_n: numbers::u32_at(body, 6),
        m0: numbers::u64_at(body, 10),
        cuc: numbers::u32_at(body, 18),
        e: numbers::u64_at(body, 22),
        cus: numbers::u32_at(body, 30),
        sqrt_a: numbers::u64_at(body, 34),
        toe: numbers::u64_at(body, 42),
        cic: numbers::u32_at(body, 50),
        omega0: numbers::u64_at(body, 54),
        cis: numbers::u32_at(body, 62),
        i0: numbers::u64_at(body, 66),
        crc: numbers::u32_at(body, 74),
        omega: numbers::u64_at(body, 78),
        omega_dot: numbers::u64_at(body, 86),
        idot: numbers::u64_at(body, 94),
        tgd: numbers::u32_at(body, 102),
        toc: numbers::u64_at(body, 106),
        af2: numbers::u32_at(body, 114),
        af1: numbers::u32_at(body, 118),
        af0: numbers::u32_at(body, 122),
        ura: numbers::u16_at(body, 126),
        iode: numbers::u16_at(body, 128),
    }
}

fn read_glonass(body: &[u8]) -> Glonass
    ensures { result ≡ fields_of_glonass body.now }
{
    Glonass {
        number: numbers::int8u_at(body, 1),
        carrier: numbers::int8s_at(body, 2),
        x: numbers::u64_at(body, 3),
        y: numbers::u64_at(body, 11),
        z: numbers::u64_at(body, 19),
        vx: numbers::u64_at(body, 27),
        vy: numbers::u64_at(body, 35),
        vz: numbers::u64_at(body, 43),
        ax: numbers::u64_at(body, 51),
        ay: numbers::u64_at(body, 59),
        az: numbers::u64_at(body, 67),
        tb: numbers::u64_at(body, 75),
        gamma: numbers::u32_at(body, 83),
        tau: numbers::u32_at(body, 87),
        age: numbers::u16_at(body, 91),
    }
}

const WIDTHS_GPS: [usize; 25] = [
    1, 1, 4, 4, 8, 4, 8, 4, 8, 8, 4, 8, 4, 8, 4, 8, 8, 8, 4, 8, 4, 4, 4, 2, 2,
];

fn words_gps(f: Gps) -> [u64; 25]
    ensures { result ≡ words (rows_of_gps f) }
{
    [
        1,
        u64::from(f.prn),
        u64::from(f.crs),
        u64::from(f.delta_n),
        f.m0,
        u64::from(f.cuc),
        f.e,
        u64::from(f.cus),
        f.sqrt_a,
        f.toe,
        u64::from(f.cic),
        f.omega0,
        u64::from(f.cis),
        f.i0,
        u64::from(f.crc),
        f.omega,
        f.omega_dot,
        f.idot,
        u64::from(f.tgd),
        f.toc,
        u64::from(f.af2),
        u64::from(f.af1),
        u64::from(f.af0),
        u64::from(f.ura),
        u64::from(f.iode),
    ]
}

const WIDTHS_GLONASS: [usize; 16] = [1, 1, 1, 8, 8, 8, 8, 8, 8, 8, 8, 8, 8, 4, 4, 2];

fn words_glonass(f: Glonass) -> [u64; 16]
    ensures { result ≡ words (rows_of_glonass f) }
{
    [
        2,
        u64::from(f.number),
        u64::from(numbers::int8_byte(f.carrier)),
        f.x,
        f.y,
        f.z,
        f.vx,
        f.vy,
        f.vz,
        f.ax,
        f.ay,
        f.az,
        f.tb,
        u64::from(f.gamma),
        u64::from(f.tau),
        u64::from(f.age),
    ]
}

impl Fields for Ephemeris {
    ghost ID = { 0x49 };

    ghost fields_of = { fields_of };

    ghost data_of = { data_of };

    const ID: u8 = 0x49;

    fn read(body: &[u8]) -> Ephemeris {
        if numbers::int8u_at(body, 0) == 1 {
            Ephemeris::Gps(read_gps(body))
        } else {
            Ephemeris::Glonass(read_glonass(body))
        }
    }

    fn encode(self, buf: &mut [u8]) -> Result<usize, Refusal> {
        match self {
            Ephemeris::Gps(f) => rows::encode(Ephemeris::ID, &words_gps(f), &WIDTHS_GPS, buf),
            Ephemeris::Glonass(f) => rows::encode(
                Ephemeris::ID,
                &words_glonass(f),
                &WIDTHS_GLONASS,
                buf,
            ),
        }
    }
}

impl Decoded for Ephemeris {
    ghost decoded_of = { decoded_of };

    ghost decodes = { λ d. refl };
}
