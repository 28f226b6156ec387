// The slice call, in place: questions 1 to 3, then the bytes from place to place up to the first event, the end of the slice or the
// limit, then what that comes to.
#![tactic(auto)]

ghost use Rattle.std.specs.Prelude.{false, List, ◌≡◌, ℕ, ◌+◌, ◌-◌, ◌<◌, ◌≤◌, length, take};
ghost use Rattle.std.proofs.Math.Option.{Option};
ghost use Rattle.refusals.specs.Numbers.{code};
ghost use Rattle.stuffing.specs.Stuffing.{DLE};
ghost use Rattle.line.specs.Frame.{mode_of, judge as judgeOf};
ghost use Rattle.line.specs.Record.{limit, Kept};
ghost use Rattle.record.specs.Posts.{InPlacePost};
ghost use Rattle.reader.specs.Moving.{moving_of, Skips, NoDle, Copied, Fills, Fits, Taken, Held, Sound, Moves, Goes, Ran, Busy, stayed, went, passed, opened, shut as shutOf, start_of, turned, base_of};
ghost use Rattle.reader.specs.Closing.{Finishes, head_with, resumed, reopened_by, dismissed, concluded, refused_by, given_by};

use checksum::SumBytes;
use latest::Latest;
use record::{Count, Event, Head, InPlace, Reader};
use refusals::Refusal;

// The numbers that move in a slice call.
#[derive(Clone, Copy)]
pub struct Moving {
    pub place: u8,
    pub id: u8,
    pub c1: u8,
    pub c2: u8,
    pub len: usize,
    pub outside: Count,
    pub pending: Count,
}

// What is left to do after the numbers have moved.
#[derive(Clone, Copy)]
pub enum Act {
    Quiet,
    Refused(Refusal),
    // A frame was open, and the byte is the identifier of another.
    Reopened(Refusal, u8),
    Ended,
}

#[derive(Clone, Copy)]
pub struct Moved {
    pub now: Moving,
    pub act: Act,
    pub at: usize,
}

// The one place that makes them: each change gives all seven anew, which the compiler keeps in registers.
fn moving_of(
    place: u8,
    id: u8,
    c1: u8,
    c2: u8,
    len: usize,
    outside: Count,
    pending: Count,
) -> Moving
    ensures { result ≡ moving_of place id c1 c2 len outside pending }
{
    Moving {
        place,
        id,
        c1,
        c2,
        len,
        outside,
        pending,
    }
}

// How many bytes of n can be counted.
fn span(fed: Count, n: usize) -> usize
    ensures { (result ≤ n) × (fed + result ≤ limit) × (result < n → fed + result ≡ limit) }
{
    let most = (Reader::LIMIT - fed) as usize;
    most.min(n)
}

// Where the array's room, or n, ends.
fn bound(len: usize, from: usize, n: usize) -> usize
    requires len_bound { len ≤ 1024 }
    requires from_le_n { from ≤ n }
    ensures { (from ≤ result) × (result ≤ n) × (len + (result - from) ≤ 1024) × (result < n → len + (result - from) ≡ 1024) }
{
    from + (Reader::CAPACITY - len).min(n - from)
}

// The first DLE from a place on, or n.
fn skip(s: &[u8], from: usize, n: usize) -> usize
    requires { (from ≤ n) × (n ≤ length s.now) }
    ensures { Skips s.now from n result }
{
    match s[from..n].iter().position(|b| *b == Reader::DLE) {
        Some(passed) => from + passed,
        None => n,
    }
}

// Stores four bytes, each by itself: a copy of slices would first ask whether they overlap.
fn store_four(d: &mut [u8; Reader::CAPACITY], to: usize, s: &[u8], at: usize)
    requires { (at + 4 ≤ length s.now) × (to + 4 ≤ 1024) × (length d.old ≡ 1024) }
    ensures { (a : List ℕ) (len from : ℕ) → to ≡ len + (at - from) → NoDle s.now at (at + 4) → Copied a d.old len s.now from at → Copied a d.new len s.now from (at + 4) }
{
    for i in 0..4 {
        d[to + i] = s[at + i];
    }
}

// Stores bytes four at a time, as long as none of the four is DLE.
fn fill_fours(d: &mut [u8; Reader::CAPACITY], len: usize, s: &[u8], from: usize) -> usize
    requires { (from ≤ length s.now) × (len + (length s.now - from) ≤ 1024) × (length d.old ≡ 1024) }
    ensures { (result ≤ length s.now) × Copied d.old d.new len s.now from result }
{
    let mut at = from;
    while stuffing::four_plain(s, at) {
        let to = len + (at - from);
        store_four(d, to, s, at);
        at += 4;
    }
    at
}

// Stores bytes until a DLE, n or 1,024 held.
fn fill(d: &mut [u8; Reader::CAPACITY], len: usize, s: &[u8], from: usize, n: usize) -> usize
    requires { (len ≤ 1024) × (from ≤ n) × (n ≤ length s.now) × (length d.old ≡ 1024) }
    ensures { Fills d.old d.new len s.now from n result }
{
    let most = bound(len, from, n);
    for at in fill_fours(d, len, &s[..most], from)..most {
        let b = s[at];
        if b == Reader::DLE {
            return at;
        }
        d[len + (at - from)] = b;
    }
    most
}

// Nothing is left to do.
fn quiet(now: Moving, at: usize) -> Moved
    ensures { result ≡ stayed now at }
{
    Moved {
        now,
        act: Act::Quiet,
        at,
    }
}

// The byte is pending, and the place is p.
fn go(m: Moving, p: u8, at: usize) -> Moved
    requires { m.pending < limit }
    ensures { result ≡ went m p at }
{
    let n = moving_of(p, m.id, m.c1, m.c2, m.len, m.outside, m.pending + 1);
    quiet(n, at)
}

// Two bytes stay outside.
fn pass_by(m: Moving, at: usize) -> Moved
    requires { m.outside + 2 ≤ limit }
    ensures { result ≡ passed m at }
{
    let n = moving_of(Reader::W, m.id, m.c1, m.c2, m.len, m.outside + 2, 0);
    quiet(n, at)
}

// A frame opens.
fn begin(m: Moving, b: u8, at: usize) -> Moved
    requires { m.pending < limit }
    ensures { result ≡ opened m b at }
{
    let n = moving_of(Reader::F, b, m.c1, m.c2, 0, m.outside, m.pending + 1);
    quiet(n, at)
}

// The byte is pending, and the act closes the frame.
fn shut(m: Moving, act: Act, at: usize) -> Moved
    requires { m.pending < limit }
    ensures { result ≡ shutOf m act at }
{
    let n = moving_of(m.place, m.id, m.c1, m.c2, m.len, m.outside, m.pending + 1);
    Moved { now: n, act, at }
}

// W: bytes outside, up to a DLE.
fn in_w(m: Moving, s: &[u8], at: usize, n: usize) -> Moved
    requires at_lt_n { (at < n) × (n ≤ length s.now) × (m.place ≡ 0) × (m.pending ≡ 0) }
    requires fits { Fits m at n }
    ensures { (k : ℕ) (a : List ℕ) → length a ≡ 1024 → Goes k m a a s.now at n result }
{
    let to = skip(s, at, n);
    let outside = m.outside + (to - at) as Count;
    let w = moving_of(m.place, m.id, m.c1, m.c2, m.len, outside, m.pending);
    if to < n {
        go(w, Reader::WD, to + 1)
    } else {
        quiet(w, to)
    }
}

// WD: an identifier opens a frame, a service code does not.
fn in_wd(m: Moving, b: u8, at: usize, n: usize) -> Moved
    requires taken { Taken m at n 1 }
    requires pending { m.pending ≡ 1 }
    ensures { (k : ℕ) (a : List ℕ) → length a ≡ 1024 → Moves k m a a b at n result }
{
    match b {
        Reader::ETX | Reader::DLE | Reader::SUM => pass_by(m, at),
        0..=2 | 4..=15 | 17..=254 => begin(m, b, at),
    }
}

// F: bytes of data, up to a DLE or one too many.
fn in_f(m: Moving, d: &mut [u8; Reader::CAPACITY], s: &[u8], at: usize, n: usize) -> Moved
    requires at_lt_n { (at < n) × (n ≤ length s.now) × (m.place ≡ 2) }
    requires held { Held m d.old }
    requires fits { Fits m at n }
    ensures { (k : ℕ) → Goes k m d.old d.new s.now at n result }
{
    let len = m.len;
    let to = fill(d, len, s, at, n);
    let pending = m.pending + (to - at) as Count;
    let w = moving_of(
        m.place,
        m.id,
        m.c1,
        m.c2,
        len + (to - at),
        m.outside,
        pending,
    );
    if to < n {
        let b = s[to];
        if b == Reader::DLE {
            go(w, Reader::FD, to + 1)
        } else {
            shut(w, Act::Refused(Refusal::TooLong), to + 1)
        }
    } else {
        quiet(w, to)
    }
}

// A DLE doubled: one of the data, or one too many.
fn in_dle(m: Moving, d: &mut [u8; Reader::CAPACITY], at: usize, n: usize) -> Moved
    requires taken { Taken m at n 3 }
    requires held { Held m d.old }
    ensures moves { (k : ℕ) → Moves k m d.old d.new DLE at n result }
    ensures d_len { length d.new ≡ 1024 }
{
    let k = m.len;
    if k < Reader::CAPACITY {
        d[k] = Reader::DLE;
        let w = moving_of(m.place, m.id, m.c1, m.c2, k + 1, m.outside, m.pending);
        go(w, Reader::F, at)
    } else {
        shut(m, Act::Refused(Refusal::TooLong), at)
    }
}

// FD: a DLE of the data, an end, a checksum, or the start of another frame.
fn in_fd(mode: u8, m: Moving, d: &mut [u8; Reader::CAPACITY], b: u8, at: usize, n: usize) -> Moved
    requires taken { Taken m at n 3 }
    requires held { Held m d.old }
    ensures moves { Moves mode m d.old d.new b at n result }
    ensures d_len { length d.new ≡ 1024 }
{
    match b {
        Reader::DLE => in_dle(m, d, at, n),
        Reader::ETX => if mode == 0 {
            shut(m, Act::Ended, at)
        } else {
            shut(m, Act::Refused(Refusal::SumMissing), at)
        },
        Reader::SUM => if mode == 0 {
            shut(m, Act::Refused(Refusal::SumUnexpected), at)
        } else {
            go(m, Reader::C0, at)
        },
        0..=2 | 4..=15 | 17..=254 => shut(m, Act::Reopened(Refusal::Cut, b), at),
    }
}

// C0: the first byte of the checksum.
fn in_c0(m: Moving, b: u8, at: usize, n: usize) -> Moved
    requires { Taken m at n 4 }
    ensures { (k : ℕ) (a : List ℕ) → Held m a → Moves k m a a b at n result }
{
    let w = moving_of(m.place, m.id, b, m.c2, m.len, m.outside, m.pending);
    go(w, Reader::C1, at)
}

// C1: the second byte of the checksum.
fn in_c1(m: Moving, b: u8, at: usize, n: usize) -> Moved
    requires { Taken m at n 5 }
    ensures { (k : ℕ) (a : List ℕ) → Held m a → Moves k m a a b at n result }
{
    let w = moving_of(m.place, m.id, m.c1, b, m.len, m.outside, m.pending);
    go(w, Reader::E, at)
}

// E: the DLE of the end.
fn in_e(m: Moving, b: u8, at: usize, n: usize) -> Moved
    requires taken { Taken m at n 6 }
    requires pending { 2 ≤ m.pending }
    ensures { (k : ℕ) (a : List ℕ) → Held m a → Moves k m a a b at n result }
{
    if b == Reader::DLE {
        go(m, Reader::ED, at)
    } else {
        shut(m, Act::Refused(Refusal::EndMissing), at)
    }
}

// ED: the end, or the start of another frame.
fn in_ed(m: Moving, b: u8, at: usize, n: usize) -> Moved
    requires taken { Taken m at n 7 }
    requires pending { 2 ≤ m.pending }
    ensures { (k : ℕ) (a : List ℕ) → Sound k m a → Held m a → Moves k m a a b at n result }
{
    match b {
        Reader::ETX => shut(m, Act::Ended, at),
        Reader::DLE | Reader::SUM => shut(m, Act::Refused(Refusal::EndMissing), at),
        0..=2 | 4..=15 | 17..=254 => shut(m, Act::Reopened(Refusal::EndMissing, b), at),
    }
}

// Bytes from one place on: at least one, up to n. The two arms with a test are what `in_f` and `in_fd` do with a DLE; doubled ones, of
// which data may have many, go a shorter way by them.
fn advance(
    mode: u8,
    m: Moving,
    d: &mut [u8; Reader::CAPACITY],
    s: &[u8],
    at: usize,
    n: usize,
) -> Moved
    requires at_lt_n { (at < n) × (n ≤ length s.now) }
    requires held { Held m d.old }
    requires fits { Fits m at n × Sound mode m d.old }
    ensures { Goes mode m d.old d.new s.now at n result }
{
    let b = s[at];
    let next = at + 1;
    match m.place {
        Reader::W => in_w(m, s, at, n),
        Reader::WD => in_wd(m, b, next, n),
        Reader::F if b == Reader::DLE => go(m, Reader::FD, next),
        Reader::F => in_f(m, d, s, at, n),
        Reader::FD if b == Reader::DLE => in_dle(m, d, next, n),
        Reader::FD => in_fd(mode, m, d, b, next, n),
        Reader::C0 => in_c0(m, b, next, n),
        Reader::C1 => in_c1(m, b, next, n),
        Reader::E => in_e(m, b, next, n),
        _ => in_ed(m, b, next, n),
    }
}

// Bytes up to n, or up to the first event.
fn run(mode: u8, m0: Moving, d: &mut [u8; Reader::CAPACITY], s: &[u8], n: usize) -> Moved
    requires n_in_bounds { n ≤ length s.now }
    requires held { Held m0 d.old }
    requires fits { Fits m0 0 n × Sound mode m0 d.old }
    ensures { Ran mode m0 d.old d.new s.now n result }
{
    let mut m = m0;
    let mut at = 0;
    while at < n {
        let t = advance(mode, m, d, s, at, n);
        if !matches!(t.act, Act::Quiet) {
            return t;
        }
        m = t.now;
        at = t.at;
    }
    quiet(m, at)
}

// The moving numbers of a head: a length that has no meaning is 0.
fn start(h: Head) -> Moving
    ensures { result ≡ start_of h }
{
    let len = if h.place < Reader::F { 0 } else { h.len };
    moving_of(h.place, h.id, h.c1, h.c2, len, h.outside, h.pending)
}

// What an act comes to: the head, and the answer's parts.
#[derive(Clone, Copy)]
pub struct Closed {
    pub head: Head,
    pub event: Event,
    pub id: u8,
    pub len: usize,
    pub closed: Count,
}

// Questions 9 to 12 of a frame that ends.
fn judge(mode: u8, id: u8, body: &[u8], c1: u8, c2: u8) -> Result<(), Refusal>
    ensures { code result ≡ judgeOf (mode_of mode) id body.now c1 c2 }
{
    if mode != 0 {
        let sum = SumBytes { c1, c2 };
        if checksum::sum_bytes(id, body) != sum {
            return Err(Refusal::SumWrong);
        }
    }
    kinds::content(id, body)
}

// The head after a call, but for accepted and refused.
fn put(h: Head, m: Moving, at: usize, place: u8, id: u8, len: usize, pending: Count) -> Head
    requires { h.fed + at ≤ limit }
    ensures { result ≡ head_with h m at place id len pending }
{
    Head {
        place,
        id,
        c1: m.c1,
        c2: m.c2,
        len,
        outside: m.outside,
        pending,
        fed: h.fed + at as Count,
        ..h
    }
}

// Nothing is closed: the numbers stay as they have moved.
fn resume(h: Head, m: Moving, at: usize) -> Closed
    requires { h.fed + at ≤ limit }
    ensures { result ≡ resumed h m at }
{
    Closed {
        head: put(h, m, at, m.place, m.id, m.len, m.pending),
        event: Event::Nothing,
        id: 0,
        len: 0,
        closed: 0,
    }
}

// A frame is refused, whole.
fn dismiss(h: Head, m: Moving, at: usize, refusal: Refusal) -> Closed
    requires { (h.fed + at ≤ limit) × (h.refused + m.pending ≤ limit) }
    ensures { result ≡ dismissed h m at refusal }
{
    let head = Head {
        refused: h.refused + m.pending,
        ..put(h, m, at, Reader::W, m.id, m.len, 0)
    };
    Closed {
        head,
        event: Event::Refusal(refusal),
        id: m.id,
        len: 0,
        closed: m.pending,
    }
}

// A frame is refused but for its last two bytes, which open another with identifier b.
fn reopen(h: Head, m: Moving, b: u8, at: usize, refusal: Refusal) -> Closed
    requires { (h.fed + at ≤ limit) × (h.refused + m.pending ≤ limit) × (2 ≤ m.pending) }
    ensures { result ≡ reopened_by h m b at refusal }
{
    let head = Head {
        refused: h.refused + (m.pending - 2),
        ..put(h, m, at, Reader::F, b, 0, 2)
    };
    Closed {
        head,
        event: Event::Refusal(refusal),
        id: m.id,
        len: 0,
        closed: m.pending - 2,
    }
}

// A frame that ended is a message, or refused.
fn conclude(h: Head, m: Moving, at: usize, judged: Result<(), Refusal>) -> Closed
    requires { (h.fed + at ≤ limit) × (h.accepted + m.pending ≤ limit) × (h.refused + m.pending ≤ limit) }
    ensures { result ≡ concluded h m at judged }
{
    if let Err(refusal) = judged {
        return dismiss(h, m, at, refusal);
    }
    let head = Head {
        accepted: h.accepted + m.pending,
        ..put(h, m, at, Reader::W, m.id, m.len, 0)
    };
    Closed {
        head,
        event: Event::Message,
        id: m.id,
        len: m.len,
        closed: m.pending,
    }
}

// What the act comes to.
fn finish(h: Head, t: Moved, d: &[u8]) -> Closed
    requires at_bound { (h.fed + t.at ≤ limit) × (h.fed + t.at ≡ h.accepted + h.refused + t.now.outside + t.now.pending) }
    requires place_bound { (t.now.place < 8) × (t.now.len ≤ 1024) × (length d.now ≡ 1024) }
    requires busy { Busy t.act t.now }
    ensures { (l : (Kept → Option (List ℕ))) → Finishes l (turned h.mode (base_of h l) t.act t.now d.now (h.fed + t.at)) d.now result }
{
    let m = t.now;
    let at = t.at;
    match t.act {
        Act::Quiet => resume(h, m, at),
        Act::Refused(refusal) => dismiss(h, m, at, refusal),
        Act::Reopened(refusal, b) => reopen(h, m, b, at, refusal),
        Act::Ended => {
            let judged = judge(h.mode, m.id, &d[..m.len], m.c1, m.c2);
            conclude(h, m, at, judged)
        }
    }
}

// A call that one of questions 1 to 3 refuses: the record as it was, and an answer with nothing in it.
fn refuse(h: Head, l: Latest, refusal: Refusal) -> InPlace
    ensures { result ≡ refused_by h l refusal }
{
    InPlace {
        head: h,
        latest: l,
        event: Event::Refusal(refusal),
        id: 0,
        len: 0,
        closed: 0,
        taken: 0,
    }
}

// The answer of a call that took bytes.
fn give(o: Closed, l: Latest, taken: usize) -> InPlace
    ensures { result ≡ given_by o l taken }
{
    InPlace {
        head: o.head,
        latest: l,
        event: o.event,
        id: o.id,
        len: o.len,
        closed: o.closed,
        taken,
    }
}

// The slice call on a record whose array stays where it is. A message's data are the array's first `len` bytes.
pub fn feed_in_place(h: Head, l: Latest, d: &mut [u8; Reader::CAPACITY], s: &[u8]) -> InPlace
    ensures { InPlacePost h l d.old d.new s.now result }
{
    let m = start(h);
    if let Err(refusal) = questions::question(h, l, d, s.len()) {
        return refuse(h, l, refusal);
    }
    let n = span(h.fed, s.len());
    let t = run(h.mode, m, d, s, n);
    let o = finish(h, t, d);
    // Two returns: as the value of a `match` the answer is cleared first and copied once more.
    if let Event::Message = o.event {
        return give(o, latest::store(l, o.id, d, o.len), t.at);
    }
    give(o, l, t.at)
}
