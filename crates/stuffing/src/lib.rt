// The byte 10h that stuffing doubles.
#![tactic(auto)]

ghost use Rattle.std.specs.Prelude.{◌≡◌};
ghost use Rattle.stuffing.specs.Stuffing.{dles, four_plain};

// DLE.
pub const DLE: u8 = 0x10;

// How many of the bytes are 10h, the byte that stuffing doubles.
pub fn count_dle(s: &[u8]) -> usize
    ensures { result ≡ dles s.now }
{
    let mut n: usize = 0;
    for b in s {
        n += usize::from(*b == DLE);
    }
    n
}

// Whether four bytes from `at` on are there, and none of them is 10h: such bytes go on as they are, four at a time.
// The four tests are joined with no branch between them, since a reader asks this of every four bytes.
pub fn four_plain(s: &[u8], at: usize) -> bool
    ensures { result ≡ four_plain s.now at }
{
    if s.len() < 4 || s.len() - 4 < at {
        return false;
    }
    (s[at] != DLE) & (s[at + 1] != DLE) & (s[at + 2] != DLE) & (s[at + 3] != DLE)
}
