// Which satellites are in use: 47h data as a word with a bit for each satellite, and back.
#![tactic(auto)]

ghost use Rattle.std.specs.Prelude.{cond, true, ◌≡◌, ℕ, ◌+◌, ◌*◌, ◌≤◌, eqb, length};
ghost use Rattle.octets.specs.Placing.{placed};
ghost use Rattle.octets.specs.Delivery.{written, written_of, filled_of};
ghost use Rattle.satellites.specs.Satellites.{satellite};
ghost use Rattle.satellites.specs.Sets.{with_bit};
ghost use Rattle.kinds.specs.Kinds.{content};
ghost use Rattle.fields_47.specs.Fields.{entry_data};
ghost use Rattle.in_use.specs.InUse.{bit_of, word_of, in_use, in_use_of, triple_of, system_data, data_of, refusal_of};

use encoding::Fields;
use fields_47::{Use, Uses};
use refusals::Refusal;

// The use of a satellite that is enabled, and of one that is not.
const ENABLED: u8 = 1;

const DISABLED: u8 = 2;

// The word of 47h data, and how many of its bits are set.
#[derive(Clone, Copy, Debug, PartialEq, Eq)]
pub struct InUse {
    pub word: u64,
    pub count: u32,
}

// The word with the satellite of a triple, if that enables it.
fn with_triple(word: u64, triple: Use) -> u64
    requires { satellite triple.system triple.number ≡ true }
    ensures { result ≡ cond (eqb triple.used 1) (with_bit word (bit_of triple)) word }
{
    if triple.used == ENABLED {
        let p = satellites::place(triple.system, triple.number);
        satellites::insert(word, p)
    } else {
        word
    }
}

// The satellites that acceptable data enables.
fn enabled(body: &[u8]) -> u64
    requires { content 0x47 body.now ≡ 0 }
    ensures { result ≡ word_of body.now }
{
    let mut word = 0;
    for triple in Uses::read(body).triples {
        word = with_triple(word, triple);
    }
    word
}

// The satellites that 47h data enables, as a word: bit k - 1 is GPS k, bit 31 + k GLONASS k.
pub fn word(body: &[u8]) -> Result<InUse, Refusal>
    ensures { in_use result ≡ in_use_of body.now }
{
    kinds::content(0x47, body)?;
    let word = enabled(body);
    Ok(InUse {
        word,
        count: word.count_ones(),
    })
}

// The triple of a satellite, as the word has it.
fn triple(word: u64, system: u8, number: u8) -> [u8; 3]
    requires { satellite system number ≡ true }
    ensures { result ≡ entry_data (triple_of word system number) }
{
    let p = satellites::place(system, number);
    let used = if satellites::contains(word, p) {
        ENABLED
    } else {
        DISABLED
    };
    [system, number, used]
}

// Puts the triples of a system's satellites 1 to `most` into the buffer, from `at` on.
fn put_system(word: u64, system: u8, most: u8, all: &mut [u8], at: usize)
    requires { (most ≤ 32) × (at + 3 * most ≤ length all.old) × ((n : ℕ) → 1 ≤ n → n ≤ most → satellite system n ≡ true) }
    ensures { all.new ≡ placed all.old at (system_data word system most) }
{
    for number in 1..=most {
        let t = triple(word, system, number);
        octets::put(&t, all, at + 3 * usize::from(number - 1));
    }
}

// The data of a word.
fn data_of(word: u64) -> [u8; 168]
    ensures { result ≡ data_of word }
{
    let mut all = [0u8; 168];
    put_system(word, 1, 32, &mut all, 0);
    put_system(word, 2, 24, &mut all, 96);
    all
}

// Writes the 47h data of a word: GPS first, then GLONASS, numbers rising.
pub fn write(word: u64, buf: &mut [u8]) -> Result<usize, Refusal>
    ensures { (written result ≡ written_of (refusal_of word) (data_of word) buf.old)
        × (buf.new ≡ filled_of (refusal_of word) (data_of word) buf.old) }
{
    if word >> 56 != 0 {
        return Err(Refusal::NoSatellite);
    }
    let all = data_of(word);
    octets::deliver(Ok(()), &all, buf)
}
