// Rows of the sources' tables, one after the other as the data of a message.
#![tactic(auto)]

ghost use Rattle.std.specs.Prelude.{◌≡◌, true, ◌≤◌, cond, Some, None, length};
ghost use Rattle.octets.specs.Delivery.{written};
ghost use Rattle.encoding.specs.Encoding.{encoded_of, encoded_into};
ghost use Rattle.rows.specs.Layout.{laid, total, short, packs, packed};

use refusals::Refusal;

// The longest data of such a kind: 49h of GPS.
const LONGEST: usize = 130;

// How many bytes the widths say for `count` words, if they pack; by what is left of the room, since the sum could wrap.
fn measure(widths: &[usize], count: usize) -> Option<usize>
    ensures { result ≡ cond (packs widths.now count) (Some (total widths.now)) None }
{
    if count < widths.len() {
        return None;
    }
    let mut left = LONGEST;
    for n in widths {
        if 8 < *n {
            return None;
        }
        left = left.checked_sub(*n)?;
    }
    Some(LONGEST - left)
}

// Fills `out` with the words, each in as many bytes as its width says.
fn fill(words: &[u64], widths: &[usize], out: &mut [u8])
    requires { (length widths.now ≤ length words.now) × (total widths.now ≡ length out.old)
        × (short widths.now ≡ true) }
    ensures { out.new ≡ laid widths.now words.now }
{
    let mut at = 0;
    for (n, x) in widths.iter().zip(words) {
        octets::put(&x.to_le_bytes()[..*n], out, at);
        at += *n;
    }
}

// Lays words out as the data of a message, each in as many bytes as its width says, and delivers it. Where words are missing, a width
// is above eight or the data would be longer than that of any such kind, the message has no data.
pub fn encode(id: u8, words: &[u64], widths: &[usize], buf: &mut [u8]) -> Result<usize, Refusal>
    ensures { (written result ≡ encoded_of id (packed widths.now words.now) buf.old)
        × (buf.new ≡ encoded_into id (packed widths.now words.now) buf.old) }
{
    let Some(n) = measure(widths, words.len()) else {
        return encoding::deliver(id, &[], buf);
    };
    let mut body = [0u8; LONGEST];
    fill(words, widths, &mut body[..n]);
    encoding::deliver(id, &body[..n], buf)
}
