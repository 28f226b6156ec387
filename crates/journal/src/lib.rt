// The journal of given messages: records one after the other in a buffer, the repeated entries of a message by column.
#![tactic(auto)]

ghost use Rattle.std.specs.Prelude.{◌≡◌, false, ◌+◌, ◌≤◌, ◌<◌, eqb, length, take};
ghost use Rattle.octets.specs.Placing.{fits, placed};
ghost use Rattle.octets.specs.Delivery.{written};
ghost use Rattle.kinds.specs.Kinds.{content};
ghost use Rattle.batch.specs.Entries.{list_of};
ghost use Rattle.batch.specs.Walks.{left, entry as taken};
ghost use Rattle.journal.specs.Records.{layout_of, layout, stored, restored, head_bytes, record_of};
ghost use Rattle.journal.specs.Calls.{refusal_in, records_in, measured, journal_written, journal_filled, judged, entry, ended, marked, read_of};

use batch::{Message, Messages};
use refusals::Refusal;

// The mark that a record begins with.
const MARK: [u8; 2] = [0x4E, 0x56];

// The longest data of a message.
pub const CAPACITY: usize = 1024;

// A message that was read, whose data are the first `length` bytes, and how many bytes its record took.
#[derive(Clone, Copy, Debug, PartialEq, Eq)]
pub struct Entry {
    pub id: u8,
    pub length: usize,
    pub taken: usize,
    pub bytes: [u8; CAPACITY],
}

impl Entry {
    // The data, in line order.
    pub fn data(&self) -> &[u8]
        ensures { result.now ≡ take self.now.length self.now.bytes }
    {
        &self.bytes[..self.length.min(CAPACITY)]
    }
}

// The repeated entries of a kind: the bytes before them, and their width.
#[derive(Clone, Copy)]
struct Layout {
    header: usize,
    width: usize,
}

#[tactic(auto, unfolding(crate::specs::Records::layout_of))]
fn layout_of(id: u8) -> Option<Layout>
    ensures { layout result ≡ layout_of id }
{
    match id {
        0x47 => Some(Layout {
            header: 0,
            width: 3,
        }),
        0x52 => Some(Layout {
            header: 0,
            width: 7,
        }),
        0xF5 => Some(Layout {
            header: 27,
            width: 30,
        }),
        _ => None,
    }
}

// Puts data as a record has them into the buffer, from `at` on, and says whether they are within it.
fn store(id: u8, body: &[u8], buf: &mut [u8], at: usize) -> bool
    ensures { (result ≡ fits buf.old at (length body.now))
        × (buf.new ≡ placed buf.old at (stored id body.now)) }
{
    match layout_of(id) {
        Some(l) => columns::to_columns(body, l.header, l.width, buf, at),
        None => octets::put(body, buf, at),
    }
}

// Puts them in line order again, in the same way.
fn unstore(id: u8, body: &[u8], buf: &mut [u8], at: usize) -> bool
    ensures { (result ≡ fits buf.old at (length body.now))
        × (buf.new ≡ placed buf.old at (restored id body.now)) }
{
    match layout_of(id) {
        Some(l) => columns::to_rows(body, l.header, l.width, buf, at),
        None => octets::put(body, buf, at),
    }
}

// The mark, the identifier and the length.
fn head(id: u8, n: usize) -> [u8; 5]
    requires { n < 65536 }
    ensures { result ≡ head_bytes id n }
{
    let [low, high, ..] = n.to_le_bytes();
    [MARK[0], MARK[1], id, low, high]
}

// Puts the record of a message into the buffer, from `at` on.
fn put_record(message: Message<'_>, buf: &mut [u8], at: usize)
    requires { (length message.data.now < 65536) × (at + (5 + length message.data.now) ≤ length buf.old) }
    ensures { buf.new ≡ placed buf.old at (record_of (taken message.entry)) }
{
    let top = head(message.id, message.data.len());
    octets::put(&top, buf, at);
    store(message.id, message.data, buf, at + 5);
}

// The length of the records of messages, or the refusal that is met first.
fn measure(messages: Messages<'_>) -> Result<usize, Refusal>
    ensures { written result ≡ measured (left messages.entry) }
{
    let mut length: usize = 0;
    for message in messages {
        length += 5 + message?.data.len();
    }
    Ok(length)
}

// Puts the records of a list that is not refused at the buffer's start. Its entries have been judged, and are taken as they stand.
fn put_records(list: &[u8], buf: &mut [u8])
    requires { (refusal_in (list_of list.now) ≡ 0) × (length (records_in (list_of list.now)) ≤ length buf.old) }
    ensures { buf.new ≡ placed buf.old 0 (records_in (list_of list.now)) }
{
    let mut rest = list;
    let mut to: usize = 0;
    while let Some((message, after)) = batch::split_entry(rest) {
        put_record(message, buf, to);
        to += 5 + message.data.len();
        rest = after;
    }
}

// Writes the records of a list of messages from the buffer's start on. A refusal writes nothing.
pub fn write(list: &[u8], buf: &mut [u8]) -> Result<usize, Refusal>
    ensures { (written result ≡ journal_written list.now buf.old)
        × (buf.new ≡ journal_filled list.now buf.old) }
{
    let messages = Messages::new(list)?;
    let length = measure(messages)?;
    if buf.len() < length {
        return Err(Refusal::Buffer);
    }
    put_records(list, buf);
    Ok(length)
}

// What reading answers of a record, by its identifier and its data as it is stored.
fn restore(id: u8, body: &[u8]) -> Result<Option<Entry>, Refusal>
    ensures { (entry result ≡ judged (content id (restored id body.now)) id (restored id body.now)) × (ended result ≡ false) }
{
    let n = body.len();
    let mut bytes = [0u8; CAPACITY];
    let in_order = unstore(id, body, &mut bytes, 0);
    // Data that is too long for the array is judged as it is, since no kind has that length.
    let data = if in_order { &bytes[..n] } else { body };
    kinds::content(id, data)?;
    Ok(Some(Entry {
        id,
        length: n,
        taken: 5 + n,
        bytes,
    }))
}

fn is_marked(bytes: &[u8]) -> bool
    ensures { result ≡ marked bytes.now }
{
    bytes.starts_with(&MARK)
}

// Reads the first record of the bytes; at their end there is none.
pub fn read(bytes: &[u8]) -> Result<Option<Entry>, Refusal>
    ensures { (entry result ≡ read_of bytes.now) × (ended result ≡ eqb (length bytes.now) 0) }
{
    let n = bytes.len();
    if n == 0 {
        return Ok(None);
    }
    if (1 < n) & !is_marked(bytes) {
        return Err(Refusal::Mark);
    }
    if n < 5 {
        return Err(Refusal::Short);
    }
    let length = usize::from(numbers::u16_at(bytes, 3));
    if n - 5 < length {
        return Err(Refusal::Short);
    }
    let end = 5 + length;
    restore(bytes[2], &bytes[5..end])
}
