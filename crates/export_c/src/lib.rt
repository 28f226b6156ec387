// The static library for C and Rust: the calls of `export`, under their C names. A slice is a pointer and a length.
//
// A call that fills a buffer returns one number: the length, or where it is refused 2^64 less the refusal's number, which a caller
// who reads the number as signed sees as that number with a minus.
#![tactic(auto)]

ghost use Rattle.std.specs.Prelude.{◌≡◌};
ghost use Rattle.octets.specs.Delivery.{written_of, filled_of};
ghost use Rattle.kinds.specs.Kinds.{content};
ghost use Rattle.line.specs.Record.{fresh};
ghost use Rattle.lister.specs.Counting.{count_of};
ghost use Rattle.writer.specs.Writing as Writing;
ghost use Rattle.lister.specs.Listing.{fresh_refusal, listing_of};
ghost use Rattle.export.specs.Answers.{answer_of};

// The listing of the bytes in a mode, as listoff and liston print it: a line for each event, then the total.
#[unsafe(no_mangle)]
pub extern "C" fn binr_list(mode: u8, bytes: &[u8], out: &mut [u8]) -> u64
    ensures { (result ≡ answer_of (written_of (fresh_refusal (fresh mode)) (listing_of (fresh mode) bytes.now) out.old))
        × (out.new ≡ filled_of (fresh_refusal (fresh mode)) (listing_of (fresh mode) bytes.now) out.old) }
{
    export::binr_list(mode, bytes, out)
}

// The frame of a message in a mode.
#[unsafe(no_mangle)]
pub extern "C" fn binr_write(mode: u8, id: u8, body: &[u8], out: &mut [u8]) -> u64
    ensures { (result ≡ answer_of (Writing.frame_written mode id body.now out.old))
        × (out.new ≡ Writing.frame_filled mode id body.now out.old) }
{
    export::binr_write(mode, id, body, out)
}

// 0 of an acceptable message, else 10, 11 or 12.
#[unsafe(no_mangle)]
pub extern "C" fn binr_judge(id: u8, body: &[u8]) -> u8
    ensures { result ≡ content id body.now }
{
    export::binr_judge(id, body)
}

// How many events the bytes raise in a mode. A mode that has no reader has none.
#[unsafe(no_mangle)]
pub extern "C" fn binr_count(mode: u8, bytes: &[u8]) -> u64
    ensures { result ≡ count_of (fresh mode) bytes.now }
{
    export::binr_count(mode, bytes)
}
