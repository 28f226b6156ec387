// Satellites by system and number, as 20h, 47h and 52h name them: which there are, the place of each among the 56, sets of them, and
// carrier numbers.
#![tactic(auto)]

ghost use Rattle.std.specs.Prelude.{cond, ◌≡◌, eqb, ltb};
ghost use Rattle.satellites.specs.Satellites.{satellite, place_of, visible, carrier};
ghost use Rattle.satellites.specs.Sets.{bit, with_bit};

// Whether there is such a satellite: system 1 (GPS) with 1 to 32, system 2 (GLONASS) with 1 to 24. The system chooses a number alone,
// which takes no branch: where systems come mixed, the processor guesses a branch by the system wrong.
pub fn satellite(system: u8, number: u8) -> bool
    ensures { result ≡ satellite system number }
{
    let most = match system {
        1 => 32,
        2 => 24,
        _ => 0,
    };
    (1..=most).contains(&number)
}

// The place of a satellite among the 56: 0 to 31 of system 1, 32 to 55 of system 2. 56 where there is no such satellite.
pub fn place(system: u8, number: u8) -> u64
    ensures { result ≡ cond (satellite system number) (place_of system number) 56 }
{
    if satellite(system, number) {
        32 * (u64::from(system) - 1) + (u64::from(number) - 1)
    } else {
        56
    }
}

// Whether the satellite at a place is in a set, which a word of 64 bits is. Past the word's end there is none.
pub fn contains(set: u64, place: u64) -> bool
    ensures { result ≡ eqb (bit set place) 1 }
{
    if 64 <= place {
        return false;
    }
    (set >> place) & 1 == 1
}

// The set with the satellite at a place besides. Past the word's end there is no place, and the set stays as it is.
pub fn insert(set: u64, place: u64) -> u64
    ensures { result ≡ cond (ltb place 64) (with_bit set place) set }
{
    if 64 <= place {
        return set;
    }
    set | (1 << place)
}

// A satellite of 52h: one of those, or of system 4 (SBAS).
pub fn visible(system: u8, number: u8) -> bool
    ensures { result ≡ visible system number }
{
    satellite(system, number) | ((system == 4) & (120..=158).contains(&number))
}

// A carrier number of GLONASS.
pub fn carrier(number: i8) -> bool
    ensures { result ≡ carrier number }
{
    (-7..=13).contains(&number)
}
