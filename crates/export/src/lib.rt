// The calls for C and Rust, which `export_c` exports: numbers and byte slices alone.
//
// A call that fills a buffer returns one number: the length, or where it is refused 2^64 less the refusal's number, which a caller
// who reads the number as signed sees as that number with a minus.
#![tactic(auto)]

ghost use Rattle.std.specs.Prelude.{◌≡◌};
ghost use Rattle.octets.specs.Delivery.{written, written_of, filled_of};
ghost use Rattle.kinds.specs.Kinds.{content};
ghost use Rattle.line.specs.Record.{fresh};
ghost use Rattle.lister.specs.Counting.{count_of};
ghost use Rattle.writer.specs.Writing as Writing;
ghost use Rattle.lister.specs.Listing.{fresh_refusal, listing_of};
ghost use Rattle.export.specs.Answers.{answer_of};

use refusals::Refusal;

// A length, or a refusal, as one number.
fn answer(w: Result<usize, Refusal>) -> u64
    ensures { result ≡ answer_of (written w) }
{
    match w {
        Ok(length) => length as u64,
        Err(refusal) => u64::from(refusal.number()).wrapping_neg(),
    }
}

// The listing of the bytes in a mode, as listoff and liston print it: a line for each event, then the total.
pub fn binr_list(mode: u8, bytes: &[u8], out: &mut [u8]) -> u64
    ensures { (result ≡ answer_of (written_of (fresh_refusal (fresh mode)) (listing_of (fresh mode) bytes.now) out.old))
        × (out.new ≡ filled_of (fresh_refusal (fresh mode)) (listing_of (fresh mode) bytes.now) out.old) }
{
    answer(lister::list(mode, bytes, out))
}

// The frame of a message in a mode.
pub fn binr_write(mode: u8, id: u8, body: &[u8], out: &mut [u8]) -> u64
    ensures { (result ≡ answer_of (Writing.frame_written mode id body.now out.old))
        × (out.new ≡ Writing.frame_filled mode id body.now out.old) }
{
    answer(writer::write(mode, id, body, out))
}

// 0 of an acceptable message, else 10, 11 or 12.
pub fn binr_judge(id: u8, body: &[u8]) -> u8
    ensures { result ≡ content id body.now }
{
    refusals::code(&kinds::content(id, body))
}

// How many events the bytes raise in a mode. A mode that has no reader has none.
pub fn binr_count(mode: u8, bytes: &[u8]) -> u64
    ensures { result ≡ count_of (fresh mode) bytes.now }
{
    lister::count_events(mode, bytes)
}
