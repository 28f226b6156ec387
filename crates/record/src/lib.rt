// The reader's record, and a fresh one.
#![tactic(auto)]

ghost use Rattle.std.specs.Prelude.{◌≡◌};
ghost use Rattle.refusals.specs.Numbers.{why};
ghost use Rattle.record.specs.View.{told, event_number};
ghost use Rattle.record.specs.Posts.{FreshPost, blank_record};

use latest::Latest;
use refusals::Refusal;

// A count of bytes.
pub type Count = u64;

// The numbers of the record. Mode and place are numbers, so that a wrong one can be refused.
#[derive(Clone, Copy, Debug, PartialEq, Eq)]
pub struct Head {
    pub mode: u8,
    pub place: u8,
    pub id: u8,
    pub c1: u8,
    pub c2: u8,
    pub len: usize,
    pub accepted: Count,
    pub refused: Count,
    pub outside: Count,
    pub pending: Count,
    pub fed: Count,
}

#[derive(Clone, Copy, Debug, PartialEq, Eq)]
pub struct Reader {
    pub head: Head,
    pub latest: Latest,
    pub bytes: [u8; Reader::CAPACITY],
}

// Nothing yet, a message, or a refusal.
#[derive(Clone, Copy, Debug, PartialEq, Eq)]
pub enum Event {
    Nothing,
    Message,
    Refusal(Refusal),
}

impl Event {
    // Why the call or the frame was refused, if it was.
    pub fn refusal(self) -> Option<Refusal>
        ensures { why result ≡ event_number (told self) }
    {
        match self {
            Event::Refusal(refusal) => Some(refusal),
            _ => None,
        }
    }
}

// A message's data are the first `len` bytes.
#[derive(Clone, Copy, Debug, PartialEq, Eq)]
pub struct Answer {
    pub event: Event,
    pub id: u8,
    pub len: usize,
    pub bytes: [u8; Reader::CAPACITY],
    pub closed: Count,
}

// A fresh reader, or refusal 1 beside a blank record.
#[derive(Clone, Copy, Debug, PartialEq, Eq)]
pub struct Fresh {
    pub refusal: Option<Refusal>,
    pub reader: Reader,
}

// What a single step returns: the record afterwards, and the answer.
#[derive(Clone, Copy, Debug, PartialEq, Eq)]
pub struct Stepped {
    pub reader: Reader,
    pub answer: Answer,
}

// What a slice call returns: the same, and how many bytes it took.
#[derive(Clone, Copy, Debug, PartialEq, Eq)]
pub struct Fed {
    pub reader: Reader,
    pub answer: Answer,
    pub taken: usize,
}

// What a slice call returns that has the record's array lent: the record but for its array, the answer but for its data.
#[derive(Clone, Copy, Debug, PartialEq, Eq)]
pub struct InPlace {
    pub head: Head,
    pub latest: Latest,
    pub event: Event,
    pub id: u8,
    pub len: usize,
    pub closed: Count,
    pub taken: usize,
}

impl Reader {
    // The service codes.
    pub const DLE: u8 = stuffing::DLE;

    pub const ETX: u8 = 0x03;

    pub const SUM: u8 = 0xFF;

    // The places, numbered in the paper's order, and how many there are.
    pub const W: u8 = 0;

    pub const WD: u8 = 1;

    pub const F: u8 = 2;

    pub const FD: u8 = 3;

    pub const C0: u8 = 4;

    pub const C1: u8 = 5;

    pub const E: u8 = 6;

    pub const ED: u8 = 7;

    pub const PLACES: u8 = 8;

    // The data bytes that a frame may have.
    pub const CAPACITY: usize = 1024;

    // The largest number of bytes that can be counted.
    pub const LIMIT: Count = 18446744073709551615;

    // A record of a mode that has taken nothing.
    fn blank(mode: u8) -> Reader
        ensures { result ≡ blank_record mode }
    {
        let head = Head {
            mode,
            place: Reader::W,
            id: 0,
            c1: 0,
            c2: 0,
            len: 0,
            accepted: 0,
            refused: 0,
            outside: 0,
            pending: 0,
            fed: 0,
        };
        let latest = Latest {
            d43: None,
            d46: None,
            d4a: None,
            d4b: None,
            deb: None,
        };
        let bytes = [0u8; Reader::CAPACITY];
        Reader {
            head,
            latest,
            bytes,
        }
    }

    // A fresh reader of mode 0 or 1; any other mode is refused by 1.
    pub fn fresh(mode: u8) -> Fresh
        ensures { FreshPost mode result }
    {
        Fresh {
            refusal: (1 < mode).then_some(Refusal::Mode),
            reader: Reader::blank(mode),
        }
    }
}
