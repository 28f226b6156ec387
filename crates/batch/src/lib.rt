// A list of messages in a buffer, and the time that it takes on the line.
#![tactic(auto)]

ghost use Rattle.std.specs.Prelude.{◌≡◌, ◌≤◌, drop, length, IfOk};
ghost use Rattle.std.specs.Iterator.{at_most};
ghost use Rattle.batch.specs.Entries.{header, header_of, limit, list_of};
ghost use Rattle.batch.specs.Times.{time, time_for};
ghost use Rattle.batch.specs.Walks.{Splits, GivesFirst};

use refusals::Refusal;

// The longest list.
pub const LIMIT: usize = 65536;

// An entry of a list: the identifier, and the length of the data.
#[derive(Clone, Copy, Debug, PartialEq, Eq)]
pub struct Header {
    pub id: u8,
    pub length: usize,
}

// A message of a list, whose data stand there.
#[derive(Clone, Copy, Debug)]
pub struct Message<'a> {
    pub id: u8,
    pub data: &'a [u8],
}

// What a list takes on the line: the bytes and the bits.
#[derive(Clone, Copy, Debug, PartialEq, Eq)]
pub struct LineTime {
    pub bytes: usize,
    pub bits: usize,
}

// The first entry of these bytes as it stands, not judged, and the bytes after it; none where they end before it does.
pub fn split_entry(list: &[u8]) -> Option<(Message<'_>, &[u8])>
    ensures { Splits list.now result }
{
    let [id, low, high, after @ ..] = list else {
        return None;
    };
    let n = usize::from(u16::from_le_bytes([*low, *high]));
    let Some((data, rest)) = after.split_at_checked(n) else {
        return None;
    };
    Some((Message { id: *id, data }, rest))
}

// The first message of these bytes, and the bytes after it.
fn split_first(list: &[u8]) -> Result<(Message<'_>, &[u8]), Refusal>
    ensures { GivesFirst list.now result }
{
    let (message, rest) = split_entry(list).ok_or(Refusal::List)?;
    kinds::content(message.id, message.data)?;
    Ok((message, rest))
}

// The entry at a place of a list; past the end there is none.
pub fn entry_at(list: &[u8], at: usize) -> Result<Header, Refusal>
    ensures { header result ≡ header_of (drop at list.now) }
{
    let Some(left) = list.get(at..) else {
        return Err(Refusal::List);
    };
    let (message, _) = split_first(left)?;
    Ok(Header {
        id: message.id,
        length: message.data.len(),
    })
}

// The messages that a list has left, one after the other. A refusal ends them.
#[derive(Clone, Copy, Debug)]
pub struct Messages<'a> {
    rest: &'a [u8],
}

impl<'a> Messages<'a> {
    ghost use Rattle.batch.specs.Walks.{opened, bytes_left, Opens};

    // Those of a list, unless it is too long.
    pub fn new(list: &'a [u8]) -> Result<Messages<'a>, Refusal>
        ensures { (opened result ≡ list_of list.now)
            × IfOk result (λ m. bytes_left m ≤ limit) × Opens list.now result }
    {
        if LIMIT < list.len() {
            return Err(Refusal::List);
        }
        Ok(Messages { rest: list })
    }
}

impl<'a> Iterator for Messages<'a> {
    ghost use Rattle.batch.specs.Walks.{Gives, bytes_left};

    type Item = Result<Message<'a>, Refusal>;

    ghost next_gives = { Gives };

    ghost remaining = { λ m. at_most (bytes_left m) };

    fn next(&mut self) -> Option<Result<Message<'a>, Refusal>> {
        if self.rest.is_empty() {
            return None;
        }
        match split_first(self.rest) {
            Ok((message, rest)) => {
                self.rest = rest;
                Some(Ok(message))
            }
            Err(refusal) => {
                self.rest = &[];
                Some(Err(refusal))
            }
        }
    }
}

// The bytes that a list takes on the line in a mode, and the bits, 11 for each byte. Nothing is written.
pub fn line_time(mode: u8, list: &[u8]) -> Result<LineTime, Refusal>
    ensures { time result ≡ time_for mode list.now }
{
    if 1 < mode {
        return Err(Refusal::Mode);
    }
    let mut bytes: usize = 0;
    for message in Messages::new(list)? {
        bytes += writer::frame_length(mode, message?.data);
    }
    Ok(LineTime {
        bytes,
        bits: 11 * bytes,
    })
}
