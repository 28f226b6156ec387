// Repeated entries by column: a header stays in front, then come the first bytes of all entries, then their second bytes, and so on.
#![tactic(auto)]

ghost use Rattle.std.specs.Prelude.{◌≡◌, true, false, ◌++◌, ℕ, ◌+◌, ◌*◌, ◌-◌, ◌/◌, ◌≤◌, ◌<◌, length, take, drop, MatchOption};
ghost use Rattle.octets.specs.Bytes.{byte};
ghost use Rattle.octets.specs.Placing.{fits, placed};
ghost use Rattle.encoding.specs.Entries.{firsts};
ghost use Rattle.columns.specs.Columns.{crossed, whole, by_columns, by_rows};

// How many entries of a width there are, where so many bytes are a header and whole entries.
fn entries_in(header: usize, width: usize, len: usize) -> Option<usize>
    ensures { MatchOption result (whole header width len ≡ false)
        (λ n. (whole header width len ≡ true) × (n ≡ (len - header) / width)) }
{
    let rest = len.checked_sub(header)?;
    if rest.checked_rem(width)? != 0 {
        return None;
    }
    Some(rest / width)
}

// Fills a column with bytes of src, from a place on and each a step after the one before.
fn gather(src: &[u8], from: usize, step: usize, column: &mut [u8])
    requires { (i : ℕ) → i < length column.old → from + step * i < length src.now }
    ensures { column.new ≡ firsts (λ i. byte src.now (from + step * i)) (length column.old) }
{
    for (i, b) in column.iter_mut().enumerate() {
        *b = src[from + step * i];
    }
}

// Puts the header, and n entries of w bytes column after column, into the buffer from `at` on, and says whether they are within it.
// Where not, nothing is written. Without entries a width may be of any size, and there is no column.
fn cross(src: &[u8], header: usize, n: usize, w: usize, buf: &mut [u8], at: usize) -> bool
    requires { length src.now ≡ header + w * n }
    ensures { (result ≡ fits buf.old at (length src.now))
        × (buf.new ≡ placed buf.old at (take header src.now ++ crossed n w (drop header src.now))) }
{
    if !octets::within(buf.len(), at, src.len()) {
        return false;
    }
    octets::put(&src[..header], buf, at);
    if n == 0 {
        return true;
    }
    let start = at + header;
    for j in 0..w {
        let top = start + n * j;
        gather(src, header + j, w, &mut buf[top..top + n]);
    }
    true
}

// From rows to columns: puts the data into the buffer from `at` on, and says whether it is within it. Where not, nothing is written.
// Entries of one byte are their column as they stand: so the step is never one, and the compiler needs one loop alone. Written into a
// caller that has few registers left, that loop takes a third more instructions.
#[inline(never)]
pub fn to_columns(src: &[u8], header: usize, width: usize, buf: &mut [u8], at: usize) -> bool
    ensures { (result ≡ fits buf.old at (length src.now))
        × (buf.new ≡ placed buf.old at (by_columns header width src.now)) }
{
    let wide = 1 < width;
    match entries_in(header, width, src.len()) {
        Some(n) if wide => cross(src, header, n, width, buf, at),
        _ => octets::put(src, buf, at),
    }
}

// From columns to rows, in the same way: the columns are entries of n bytes, and as many as a row is wide.
pub fn to_rows(src: &[u8], header: usize, width: usize, buf: &mut [u8], at: usize) -> bool
    ensures { (result ≡ fits buf.old at (length src.now))
        × (buf.new ≡ placed buf.old at (by_rows header width src.now)) }
{
    match entries_in(header, width, src.len()) {
        Some(n) => cross(src, header, width, n, buf, at),
        None => octets::put(src, buf, at),
    }
}
