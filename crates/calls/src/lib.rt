// The calls on a record by value: a slice and a single step. The theorem over every list of calls is in this crate's proofs.
#![tactic(auto)]

ghost use Rattle.record.specs.Posts.{StepPost, FeedPost};

use record::{Answer, Fed, Reader, Stepped};

// The slice call: bytes up to the first event, the end of the slice or the limit.
pub fn feed(old: Reader, s: &[u8]) -> Fed
    ensures { FeedPost old s.now result }
{
    let mut bytes = old.bytes;
    let x = reader::feed_in_place(old.head, old.latest, &mut bytes, s);
    Fed {
        reader: Reader {
            head: x.head,
            latest: x.latest,
            bytes,
        },
        answer: Answer {
            event: x.event,
            id: x.id,
            len: x.len,
            bytes,
            closed: x.closed,
        },
        taken: x.taken,
    }
}

// The single step: the slice call on one byte.
pub fn step(r: Reader, b: u8) -> Stepped
    ensures { StepPost r b result }
{
    let f = feed(r, &[b]);
    Stepped {
        reader: f.reader,
        answer: f.answer,
    }
}
