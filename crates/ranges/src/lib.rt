// The ranges of the fields: question 12 of document 01, in its order. Each test is beside the definition that it decides; a field past
// the end of the data reads as 0.
#![tactic(auto)]

ghost use Rattle.std.specs.Prelude.{cond, ◌&&◌, ◌≡◌, ◌+◌, eqb};
ghost use Rattle.octets.specs.Bytes.{byte};
ghost use Rattle.numbers.specs.Signed.{int8};
ghost use Rattle.satellites.specs.Satellites.{between, satellite, carrier};
ghost use Rattle.ranges.specs.Ranges.{all, in_1f, in_20, zone, in_23, antenna, in_43, in_46, in_47, in_49, in_eb, entry, in_52};

pub fn in_1f(body: &[u8]) -> bool
    ensures { result ≡ in_1f body.now }
{
    body.is_empty() || octets::byte_at(body, 0) <= 1
}

pub fn in_20(body: &[u8]) -> bool
    ensures { result ≡ in_20 body.now }
{
    satellites::satellite(octets::byte_at(body, 0), octets::byte_at(body, 1))
}

// The local zone. The signs of hours and minutes are independent.
fn zone(hours: i8, minutes: i8) -> bool
    ensures { result ≡ zone hours minutes }
{
    (-13..=13).contains(&hours) && (-59..=59).contains(&minutes)
}

#[tactic(auto, using(numbers::proofs::NumberLaws::number_one))]
pub fn in_23(body: &[u8]) -> bool
    ensures { result ≡ in_23 body.now }
{
    body.is_empty() || zone(numbers::int8s_at(body, 0), numbers::int8s_at(body, 1))
}

// The antenna state of a result byte: bits 7 and 6.
fn antenna(res: u8) -> u8
    ensures { result ≡ antenna res }
{
    (res >> 6) & 3
}

// The four bytes after the first two are 0.
fn ends_in_zeros(body: &[u8]) -> bool
    ensures { result ≡ all 4 (λ i. eqb (byte body.now (2 + i)) 0) }
{
    (2..6).all(|at| octets::byte_at(body, at) == 0)
}

pub fn in_43(body: &[u8]) -> bool
    ensures { result ≡ in_43 body.now }
{
    octets::byte_at(body, 0) == 2 && antenna(octets::byte_at(body, 1)) != 2 && ends_in_zeros(body)
}

#[tactic(auto, using(numbers::proofs::NumberLaws::number_one))]
pub fn in_46(body: &[u8]) -> bool
    ensures { result ≡ in_46 body.now }
{
    let second = numbers::u32_at(body, 0);
    let day = octets::byte_at(body, 4);
    let month = octets::byte_at(body, 5);
    let year = numbers::u16_at(body, 6);
    second <= 604799
        && calendar::is_date(day, month, year)
        && 1999 < year
        && zone(numbers::int8s_at(body, 8), numbers::int8s_at(body, 9))
}

// A triple of 47h: a satellite, and its use.
fn triple(system: u8, number: u8, used: u8) -> bool
    ensures { result ≡ (satellite system number && between 1 2 used) }
{
    satellites::satellite(system, number) & (1..=2).contains(&used)
}

// One pass, with the set of the satellites seen: 56 triples, 56 satellites and none twice, so each is there once.
pub fn in_47(body: &[u8]) -> bool
    ensures { result ≡ in_47 body.now }
{
    let mut seen: u64 = 0;
    for i in 0..56 {
        let at = 3 * i;
        let system = octets::byte_at(body, at);
        let number = octets::byte_at(body, at + 1);
        let used = octets::byte_at(body, at + 2);
        if !triple(system, number, used) {
            return false;
        }
        let p = satellites::place(system, number);
        if satellites::contains(seen, p) {
            return false;
        }
        seen = satellites::insert(seen, p);
    }
    true
}

// First byte 1: GPS, number 1 to 32. First byte 2: GLONASS, number 0 to 24 and a carrier.
#[tactic(auto, using(numbers::proofs::NumberLaws::number_one))]
pub fn in_49(body: &[u8]) -> bool
    ensures { result ≡ in_49 body.now }
{
    let system = octets::byte_at(body, 0);
    let number = octets::byte_at(body, 1);
    match system {
        1 => (1..=32).contains(&number),
        2 => number <= 24 && satellites::carrier(numbers::int8s_at(body, 2)),
        _ => false,
    }
}

pub fn in_eb(body: &[u8]) -> bool
    ensures { result ≡ in_eb body.now }
{
    octets::byte_at(body, 16) <= 3
}

// The carrier byte of 52h: FFh, but for system 2 a carrier.
fn carrier_byte(system: u8, b: u8) -> bool
    ensures { result ≡ cond (eqb system 2) (carrier (int8 b)) (eqb b 0xFF) }
{
    if system == 2 {
        satellites::carrier(numbers::int8_of(b))
    } else {
        b == 0xFF
    }
}

// The entry of 52h at the start of a slice. Lent seven bytes exactly, it has no end to look for.
fn in_entry(e: &[u8]) -> bool
    ensures { result ≡ entry e.now }
{
    let system = octets::byte_at(e, 0);
    let elevation = octets::byte_at(e, 3);
    let azimuth = numbers::u16_at(e, 4);
    satellites::visible(system, octets::byte_at(e, 1))
        & carrier_byte(system, octets::byte_at(e, 2))
        & (elevation <= 90)
        & (azimuth <= 359)
}

pub fn in_52(body: &[u8]) -> bool
    ensures { result ≡ in_52 body.now }
{
    body.chunks_exact(7).all(in_entry)
}
