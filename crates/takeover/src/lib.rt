// Records of readers that counted in 32 bits, and the call that takes one over.
#![tactic(auto)]

ghost use Rattle.std.specs.Prelude.{◌≡◌, ◌≢◌};
ghost use Rattle.refusals.specs.Numbers.{why};
ghost use Rattle.questions.specs.Question.{Questions};
ghost use Rattle.takeover.specs.Takeover.{head_of, latest_from, latest32_from, no_record, TakeOverPost};

use latest::Latest;
use record::{Count, Head, Reader};
use refusals::Refusal;

// The record as it was: today's, with counts of 32 bits, and a flag beside the data of each latest message.
#[derive(Clone, Copy)]
pub struct Head32 {
    pub mode: u8,
    pub place: u8,
    pub id: u8,
    pub c1: u8,
    pub c2: u8,
    pub len: usize,
    pub accepted: u32,
    pub refused: u32,
    pub outside: u32,
    pub pending: u32,
    pub fed: u32,
}

// Each part as it was, in a head of today.
impl From<Head32> for Head {
    ghost from_gives = { λ h t. t ≡ head_of h };

    fn from(h: Head32) -> Head
        ensures { result ≡ head_of h }
    {
        Head {
            mode: h.mode,
            place: h.place,
            id: h.id,
            c1: h.c1,
            c2: h.c2,
            len: h.len,
            accepted: Count::from(h.accepted),
            refused: Count::from(h.refused),
            outside: Count::from(h.outside),
            pending: Count::from(h.pending),
            fed: Count::from(h.fed),
        }
    }
}

// The latest message of each kind that is kept, as it was: whether there is one, and its data.
#[derive(Clone, Copy, Debug, PartialEq, Eq)]
pub struct Latest32 {
    pub has43: bool,
    pub d43: [u8; 6],
    pub has46: bool,
    pub d46: [u8; 10],
    pub has4a: bool,
    pub d4a: [u8; 33],
    pub has4b: bool,
    pub d4b: [u8; 42],
    pub haseb: bool,
    pub deb: [u8; 26],
}

// The data whose flag is true; what stands beside any other flag has no meaning.
impl From<Latest32> for Latest {
    ghost from_gives = { λ l t. t ≡ latest_from l };

    fn from(l: Latest32) -> Latest
        ensures { result ≡ latest_from l }
    {
        Latest {
            d43: l.has43.then_some(l.d43),
            d46: l.has46.then_some(l.d46),
            d4a: l.has4a.then_some(l.d4a),
            d4b: l.has4b.then_some(l.d4b),
            deb: l.haseb.then_some(l.deb),
        }
    }
}

// And back: the same latest messages, with zeros beside a flag that is false, as a fresh record had them.
impl From<Latest> for Latest32 {
    ghost from_gives = { λ l t. t ≡ latest32_from l };

    fn from(l: Latest) -> Latest32
        ensures { result ≡ latest32_from l }
    {
        Latest32 {
            has43: l.d43.is_some(),
            d43: l.d43.unwrap_or([0; 6]),
            has46: l.d46.is_some(),
            d46: l.d46.unwrap_or([0; 10]),
            has4a: l.d4a.is_some(),
            d4a: l.d4a.unwrap_or([0; 33]),
            has4b: l.d4b.is_some(),
            d4b: l.d4b.unwrap_or([0; 42]),
            haseb: l.deb.is_some(),
            deb: l.deb.unwrap_or([0; 26]),
        }
    }
}

#[derive(Clone, Copy)]
pub struct Reader32 {
    pub head: Head32,
    pub latest: Latest32,
    pub bytes: [u8; Reader::CAPACITY],
}

// A reader that goes on, or the refusal beside a record by which no byte can be read.
#[derive(Clone, Copy)]
pub struct TakenOver {
    pub refusal: Option<Refusal>,
    pub reader: Reader,
}

// The mode of that record: no reader has it.
const NO_MODE: u8 = 255;

// A record of today, as it is where questions 1 and 2 accept it, with no byte offered; else the one by which no byte can be read.
fn admit(reader: Reader) -> TakenOver
    ensures asked { Questions reader 0 (why result.refusal) }
    ensures accepted { why result.refusal ≡ 0 → result.reader ≡ reader }
    ensures refused { why result.refusal ≢ 0 → result.reader ≡ no_record }
{
    match questions::question(reader.head, reader.latest, &reader.bytes, 0) {
        Ok(()) => TakenOver {
            refusal: None,
            reader,
        },
        Err(refusal) => TakenOver {
            refusal: Some(refusal),
            reader: Reader::fresh(NO_MODE).reader,
        },
    }
}

// Takes a record over, a full one too: question 3 has no part in it. One that questions 1 or 2 refuse yields no record.
pub fn take_over(old: Reader32) -> TakenOver
    ensures { TakeOverPost old result }
{
    let head = Head::from(old.head);
    let latest = Latest::from(old.latest);
    let bytes = old.bytes;
    admit(Reader {
        head,
        latest,
        bytes,
    })
}
