// Reads calls as hexadecimal text, a line each, and prints how the kinds without entries are decoded and encoded. A line that starts
// with # is printed as it is. Any other is family, identifier, a field's number, a value, room in two bytes, low byte first, then data.
// The family is 00 for the kinds without data, 01 for those of one byte or none, 02 for the offset from UTC, 03 for a date rolled, 04 for
// the time in UTC, else the identifier of a kind. The data of family 02 are a second in four bytes, a week in two, then those of a 4Bh;
// its fields are the bits of the offset. Those of family 03 are a day, a month and a year in two bytes; its line has, each as refusal, day,
// month and year, the day after and the day before by value, then in place, last the date rolled forward and back. Those of family 04 are
// a 46h's; its fields are the second of the day and the date.
//
// The data are decoded, the field of this number (0: none) gets the value, and the fields are encoded into so many bytes of a buffer
// of 5A; the families 01 and 20 encode this number and this value as their two fields. A call's line has family, identifier, the
// refusal of the data and, where there is none, the fields, the wide ones first, signed ones last, FP fields as their bits; then the
// refusal and the length of the encoding, and last the buffer up to four bytes past the room.
#![tactic(auto)]

ghost use Rattle.std.specs.Prelude.{not, T};
ghost use Rattle.std.specs.Float.Ieee.{is_nan};

use answering::{Regardless, print_numbers, print_octets, print_written};
use dates::Date;
use encoding::Fields;
use fields_4a::Ionosphere;
use fields_4b::Scales;
use fields_20::Satellite;
use fields_23::Zone;
use fields_43::Outcome;
use fields_46::Time;
use fields_49::{Ephemeris, Glonass, Gps};
use fields_byte::OneByte;
use fields_eb::GlonassTime;
use refusals::Refusal;
use std::io;

// Fields that are printed, and changed by a field's number.
trait Tried: Fields {
    fn show(self, rt: &impl Print) -> io::Result<()>;

    fn changed(self, which: u8, value: u8) -> Self;
}

// Decodes data, and encodes its fields with one of them changed.
fn run_fields<F: Tried>(
    rt: &impl Print,
    d: &[u8],
    which: u8,
    value: u8,
    buf: &mut [u8],
) -> io::Result<()> {
    match encoding::decode::<F>(d) {
        Ok(f) => {
            print!(rt; " 0")?;
            f.show(rt)?;
            print_written(rt, &f.changed(which, value).encode(buf))
        }
        Err(refusal) => print!(rt; " {}", refusal.number()),
    }
}

fn run_empty(rt: &impl Print, id: u8, d: &[u8], buf: &mut [u8]) -> io::Result<()> {
    let decoded = fields_byte::decode_empty(id, d);
    print!(rt; " {}", refusals::code(&decoded))?;
    print_written(rt, &fields_byte::encode_empty(id, buf))
}

fn run_one(
    rt: &impl Print,
    id: u8,
    d: &[u8],
    count: u8,
    value: u8,
    buf: &mut [u8],
) -> io::Result<()> {
    match fields_byte::decode_one_byte(id, d) {
        Ok(f) => print!(rt; " 0 {} {}", f.count, f.value)?,
        Err(refusal) => print!(rt; " {}", refusal.number())?,
    }
    let f = OneByte {
        count: usize::from(count),
        value,
    };
    print_written(rt, &fields_byte::encode_one_byte(id, f, buf))
}

fn run_20(rt: &impl Print, d: &[u8], system: u8, number: u8, buf: &mut [u8]) -> io::Result<()> {
    match encoding::decode::<Satellite>(d) {
        Ok(f) => print!(rt; " 0 {} {}", f.system, f.number)?,
        Err(refusal) => print!(rt; " {}", refusal.number())?,
    }
    print_written(rt, &Satellite { system, number }.encode(buf))
}

impl Tried for Zone {
    fn show(self, rt: &impl Print) -> io::Result<()> {
        print!(rt; " {} {} {}", self.count, self.hours, self.minutes)
    }

    fn changed(self, which: u8, value: u8) -> Zone {
        match which {
            1 => Zone {
                count: usize::from(value),
                ..self
            },
            2 => Zone {
                hours: value.cast_signed(),
                ..self
            },
            3 => Zone {
                minutes: value.cast_signed(),
                ..self
            },
            _ => self,
        }
    }
}

impl Tried for Outcome {
    fn show(self, rt: &impl Print) -> io::Result<()> {
        print!(rt;
            " {} {} {} {}",
            self.antenna,
            u8::from(self.glonass),
            u8::from(self.gps),
            self.low
        )
    }

    fn changed(self, which: u8, value: u8) -> Outcome {
        match which {
            1 => Outcome {
                antenna: value,
                ..self
            },
            2 => Outcome { low: value, ..self },
            _ => self,
        }
    }
}

impl Tried for Time {
    fn show(self, rt: &impl Print) -> io::Result<()> {
        print!(rt;
            " {} {} {} {} {} {}",
            self.second, self.year, self.day, self.month, self.hours, self.minutes
        )
    }

    // A second is 604,800 more than the value and a year 1,900 more, so that those past the ends of the ranges can be had.
    fn changed(self, which: u8, value: u8) -> Time {
        match which {
            1 => Time {
                second: 604800 + u32::from(value),
                ..self
            },
            2 => Time { day: value, ..self },
            3 => Time {
                month: value,
                ..self
            },
            4 => Time {
                year: 1900 + u16::from(value),
                ..self
            },
            5 => Time {
                hours: value.cast_signed(),
                ..self
            },
            6 => Time {
                minutes: value.cast_signed(),
                ..self
            },
            _ => self,
        }
    }
}

fn show_gps(rt: &impl Print, f: Gps) -> io::Result<()> {
    let wide = [
        f.m0,
        f.e,
        f.sqrt_a,
        f.toe,
        f.omega0,
        f.i0,
        f.omega,
        f.omega_dot,
        f.idot,
        f.toc,
    ];
    let narrow = [
        f.crs, f.delta_n, f.cuc, f.cus, f.cic, f.cis, f.crc, f.tgd, f.af2, f.af1, f.af0,
    ];
    print_numbers(rt, &wide)?;
    print_numbers(rt, &narrow)?;
    print!(rt; " {} {} {}", f.ura, f.iode, f.prn)
}

fn show_glonass(rt: &impl Print, f: Glonass) -> io::Result<()> {
    let wide = [f.x, f.y, f.z, f.vx, f.vy, f.vz, f.ax, f.ay, f.az, f.tb];
    print_numbers(rt, &wide)?;
    print!(rt;
        " {} {} {} {} {}",
        f.gamma, f.tau, f.age, f.number, f.carrier
    )
}

fn changed_gps(f: Gps, which: u8, value: u8) -> Gps {
    match which {
        1 => Gps { prn: value, ..f },
        _ => f,
    }
}

fn changed_glonass(f: Glonass, which: u8, value: u8) -> Glonass {
    match which {
        1 => Glonass { number: value, ..f },
        2 => Glonass {
            carrier: value.cast_signed(),
            ..f
        },
        _ => f,
    }
}

impl Tried for Ephemeris {
    fn show(self, rt: &impl Print) -> io::Result<()> {
        match self {
            Ephemeris::Gps(f) => show_gps(rt, f),
            Ephemeris::Glonass(f) => show_glonass(rt, f),
        }
    }

    fn changed(self, which: u8, value: u8) -> Ephemeris {
        match self {
            Ephemeris::Gps(f) => Ephemeris::Gps(changed_gps(f, which, value)),
            Ephemeris::Glonass(f) => Ephemeris::Glonass(changed_glonass(f, which, value)),
        }
    }
}

// 4Ah and 4Bh have no ranges, so that no change would be refused.
impl Tried for Ionosphere {
    fn show(self, rt: &impl Print) -> io::Result<()> {
        let narrow = [
            self.alpha0,
            self.alpha1,
            self.alpha2,
            self.alpha3,
            self.beta0,
            self.beta1,
            self.beta2,
            self.beta3,
        ];
        print_numbers(rt, &narrow)?;
        print!(rt; " {}", self.reliable)
    }

    fn changed(self, _: u8, _: u8) -> Ionosphere {
        self
    }
}

impl Tried for Scales {
    fn show(self, rt: &impl Print) -> io::Result<()> {
        print!(rt; " {} {} {} {}", self.a0, self.a1, self.tau_c, self.tot)?;
        print_numbers(rt, &[self.wnt, self.wn_lsf, self.dn, self.na])?;
        print!(rt;
            " {} {} {} {}",
            self.gps_reliable, self.glonass_reliable, self.dt_ls, self.dt_lsf
        )
    }

    fn changed(self, _: u8, _: u8) -> Scales {
        self
    }
}

impl Tried for GlonassTime {
    fn show(self, rt: &impl Print) -> io::Result<()> {
        print!(rt;
            " {} {} {} {} {}",
            self.tau_c, self.tau_gps, self.b1, self.b2, self.na
        )?;
        print_numbers(rt, &[self.n4, self.reliable, self.kp, self.ut1_reliable])
    }

    fn changed(self, which: u8, value: u8) -> GlonassTime {
        match which {
            1 => GlonassTime { kp: value, ..self },
            _ => self,
        }
    }
}

fn show_offset(rt: &impl Print, x: f64) -> io::Result<()>
    requires { T (not (is_nan x)) }
{
    print!(rt; " 0 {:016x}", x.to_bits())
}

fn run_offset(rt: &impl Print, s: &[u8]) -> io::Result<()> {
    let Some((given, d)) = s.split_at_checked(6) else {
        return Ok(());
    };
    match utc::offset(d, numbers::u32_at(given, 0), numbers::u16_at(given, 4)) {
        Ok(x) => show_offset(rt, x),
        Err(refusal) => print!(rt; " {}", refusal.number()),
    }
}

fn show_date(rt: &impl Print, date: Date) -> io::Result<()> {
    print!(rt; " {} {} {}", date.day, date.month, date.year)
}

// What a roll answers, and the date that it leaves.
fn show_rolled<T>(rt: &impl Print, answer: &Result<T, Refusal>, date: Date) -> io::Result<()> {
    print!(rt; " {}", refusals::code(answer))?;
    show_date(rt, date)
}

fn run_dates(rt: &impl Print, s: &[u8]) -> io::Result<()> {
    let d = Date {
        day: octets::byte_at(s, 0),
        month: octets::byte_at(s, 1),
        year: numbers::u16_at(s, 2),
    };
    let after = dates::day_after(d);
    show_rolled(rt, &after, after.unwrap_or(d))?;
    let before = dates::day_before(d);
    show_rolled(rt, &before, before.unwrap_or(d))?;
    let mut next = d;
    let forward = dates::roll_forward(&mut next);
    show_rolled(rt, &forward, next)?;
    let mut last = d;
    let back = dates::roll_back(&mut last);
    show_rolled(rt, &back, last)?;
    let returned = dates::roll_back(&mut next);
    show_rolled(rt, &returned, next)
}

fn run_utc(rt: &impl Print, d: &[u8]) -> io::Result<()> {
    match dates::utc(d) {
        Ok(t) => {
            print!(rt; " 0 {}", t.second)?;
            show_date(rt, t.date)
        }
        Err(refusal) => print!(rt; " {}", refusal.number()),
    }
}

fn run(
    rt: &impl Print,
    family: u8,
    id: u8,
    d: &[u8],
    which: u8,
    value: u8,
    buf: &mut [u8],
) -> io::Result<()> {
    match family {
        0x00 => run_empty(rt, id, d, buf),
        0x01 => run_one(rt, id, d, which, value, buf),
        0x02 => run_offset(rt, d),
        0x03 => run_dates(rt, d),
        0x04 => run_utc(rt, d),
        0x20 => run_20(rt, d, which, value, buf),
        0x23 => run_fields::<Zone>(rt, d, which, value, buf),
        0x43 => run_fields::<Outcome>(rt, d, which, value, buf),
        0x46 => run_fields::<Time>(rt, d, which, value, buf),
        0x49 => run_fields::<Ephemeris>(rt, d, which, value, buf),
        0x4A => run_fields::<Ionosphere>(rt, d, which, value, buf),
        0x4B => run_fields::<Scales>(rt, d, which, value, buf),
        _ => run_fields::<GlonassTime>(rt, d, which, value, buf),
    }
}

fn call(rt: &impl Print, s: &[u8]) -> io::Result<()> {
    let [family, id, which, value, low, high, d @ ..] = s else {
        return Ok(());
    };
    let room = usize::from(u16::from_le_bytes([*low, *high]));
    let mut buf = [0x5Au8; 160];
    let Some(lent) = buf.get_mut(..room) else {
        return Ok(());
    };
    print!(rt; "{family:02x}{id:02x}")?;
    run(rt, *family, *id, d, *which, *value, lent)?;
    print!(rt; " ")?;
    print_octets(rt, "", &buf, room + 4)?;
    println!(rt)
}

fn main(rt: HostRuntime) -> io::Result<()> {
    let rt = Regardless(rt);
    let mut input = [0u8; 131072];
    let mut bytes = [0u8; 256];
    answering::each_call(&rt, &mut input, &mut bytes, |s| call(&rt, s))
}
