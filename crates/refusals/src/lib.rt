// Why calls refuse: one refusal for each question of document 01, in the order in which they are asked; from `Unreliable` on document 02's.
#![tactic(auto)]

ghost use Rattle.std.specs.Prelude.{◌≡◌};
ghost use Rattle.refusals.specs.Numbers.{number, code, why};

// The refusals, in the order of their numbers.
#[derive(Clone, Copy, Debug, PartialEq, Eq)]
pub enum Refusal {
    // The mode is neither 0 nor 1.
    Mode = 1,

    // The record is not possible.
    Record = 2,

    // No further byte can be counted.
    Full = 3,

    // More data bytes than a frame may have.
    TooLong = 4,

    // The start of another frame came before the end.
    Cut = 5,

    // An end without a checksum, in mode 1.
    SumMissing = 6,

    // A checksum in mode 0.
    SumUnexpected = 7,

    // No end after the checksum.
    EndMissing = 8,

    // The checksum does not agree.
    SumWrong = 9,

    // The identifier is not listed.
    Unlisted = 10,

    // The kind does not allow this length.
    Length = 11,

    // A field is out of range.
    Range = 12,

    // The lent buffer is too short.
    Buffer = 13,

    // The message says that its GPS time is not reliable.
    Unreliable = 14,

    // A second is none of a week, or the weeks are too far apart.
    Time = 15,

    // A coefficient is not finite.
    NotFinite = 16,

    // A bit of a word of satellites is no satellite's.
    NoSatellite = 17,

    // There is no such date, or its year or the one rolled to is outside 1999 to 65,535.
    Date = 18,

    // A list of messages is too long, or an entry of it is cut short.
    List = 19,

    // A record of the journal does not begin with the mark.
    Mark = 20,

    // A record of the journal is cut short.
    Short = 21,
}

impl Refusal {
    // The number by which the documents name it.
    pub fn number(self) -> u8
        ensures { result ≡ number self }
    {
        self as u8
    }
}

// The number of an answer: 0 where nothing refuses, else the refusal's.
pub fn code<T>(answer: &Result<T, Refusal>) -> u8
    ensures { result ≡ code answer.now }
{
    match answer {
        Ok(_) => 0,
        Err(refusal) => refusal.number(),
    }
}

// The number of a refusal that there may be: 0 where there is none.
pub fn why(refusal: Option<Refusal>) -> u8
    ensures { result ≡ why refusal }
{
    match refusal {
        None => 0,
        Some(r) => r.number(),
    }
}
