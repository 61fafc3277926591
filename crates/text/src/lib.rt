// Text in a chunk: well-formed UTF-8, strings that end in NUL, and whether two texts are equal.
#![tactic(auto)]

ghost use Rattle.std.specs.Prelude.{◌≡◌, ◌<◌, ◌≤◌, length};
ghost use Rattle.text.specs.Utf8.{well_formed};
ghost use Rattle.text.specs.Sequences.{tails_after, lowest_after, highest_after};
ghost use Rattle.text.specs.Neighbours.{tail_due, fits};
ghost use Rattle.text.specs.Strings.{cstring_at, without_nul, FoundWithin};
ghost use Rattle.text.specs.Same.{same_bytes};

// Bytes that an offset leads to: `length` bytes from `place` on.
#[derive(Clone, Copy, Debug, PartialEq, Eq)]
pub struct Span {
    pub place: usize,
    pub length: usize,
}

// How many bytes follow the first byte of a sequence of two to four bytes; 0 where no such sequence begins so.
#[tactic(auto, unfolding(crate::specs::Sequences::tails_after))]
fn tails_after(first: u8) -> u8
    ensures { result ≡ tails_after first }
{
    match first {
        0xc2..=0xdf => 1,
        0xe0..=0xef => 2,
        0xf0..=0xf4 => 3,
        _ => 0,
    }
}

// The lowest second byte after a first one.
#[tactic(auto, unfolding(crate::specs::Sequences::lowest_after))]
fn lowest_after(first: u8) -> u8
    ensures { result ≡ lowest_after first }
{
    match first {
        0xe0 => 0xa0,
        0xf0 => 0x90,
        _ => 0x80,
    }
}

// The highest second byte after a first one.
#[tactic(auto, unfolding(crate::specs::Sequences::highest_after))]
fn highest_after(first: u8) -> u8
    ensures { result ≡ highest_after first }
{
    match first {
        0xed => 0x9f,
        0xf4 => 0x8f,
        _ => 0xbf,
    }
}

// Whether a sequence that one of three bytes began goes on after them.
fn tail_due(p3: u8, p2: u8, p1: u8) -> bool
    ensures { result ≡ tail_due p3 p2 p1 }
{
    (p1 >= 0xc0) | (p2 >= 0xe0) | (p3 >= 0xf0)
}

// Whether a byte fits after the three before it.
#[tactic(auto, unfolding(crate::specs::Neighbours::fits))]
fn fits(p3: u8, p2: u8, p1: u8, b: u8) -> bool
    ensures { result ≡ fits p3 p2 p1 b }
{
    let due = tail_due(p3, p2, p1);
    let follows = (lowest_after(p1)..=highest_after(p1)).contains(&b);
    let begins = (b < 0x80) | (0xc2..=0xf4).contains(&b);
    if due { follows } else { begins }
}

// Whether bytes are well-formed UTF-8: sequence by sequence, which is quick where most bytes are below 0x80. Up to 8 bytes `from_utf8` of std takes
// 1.1 to 1.6 times as long.
#[tactic(auto, unfolding(crate::specs::Utf8::well_formed), using(crate::proofs::Sequences::turns))]
fn short_utf8_ok(s: &[u8]) -> bool
    ensures { result ≡ well_formed s.now }
{
    let mut bytes = s.iter();
    while let Some(&first) = bytes.next() {
        if first < 0x80 {
            continue;
        }
        let tails = tails_after(first);
        if tails == 0 {
            return false;
        }
        let (mut low, mut high) = (lowest_after(first), highest_after(first));
        for _ in 0..tails {
            let Some(&b) = bytes.next() else {
                return false;
            };
            if !(low..=high).contains(&b) {
                return false;
            }
            (low, high) = (0x80, 0xbf);
        }
    }
    true
}

// The same, byte by byte with the three before each. No byte ends the loop, so that it is compiled to steps of sixteen bytes: `from_utf8` takes 1.6 to 6
// times as long where not all bytes are below 0x80, and a loop over `array_windows` up to 1.8 times.
#[tactic(auto, using(crate::proofs::Neighbours::fits_start, crate::proofs::Neighbours::fits_next))]
fn long_utf8_ok(s: &[u8]) -> bool
    requires { 3 ≤ length s.now }
    ensures { result ≡ well_formed s.now }
{
    let mut ok = fits(0, 0, 0, s[0]) & fits(0, 0, s[0], s[1]) & fits(0, s[0], s[1], s[2]);
    for i in 3..s.len() {
        ok &= fits(s[i - 3], s[i - 2], s[i - 1], s[i]);
    }
    let n = s.len();
    ok & !tail_due(s[n - 3], s[n - 2], s[n - 1])
}

// Whether the bytes are well-formed UTF-8.
pub fn utf8_ok(s: &[u8]) -> bool
    ensures { result ≡ well_formed s.now }
{
    if s.len() < 64 {
        return short_utf8_ok(s);
    }
    long_utf8_ok(s)
}

// The string at an offset, up to its NUL. Bytes below 0x80 are well-formed as they are, so that most strings need no second pass: `position` and then
// a test of the bytes take 1.1 to 1.8 times as long up to 24 bytes.
#[tactic(auto, using(crate::proofs::Strings::until_nul_more, crate::proofs::Strings::string_nowhere))]
pub fn cstring_at(s: &[u8], at: usize) -> Option<Span>
    ensures { (result ≡ cstring_at s.now at) × FoundWithin (length s.now) result }
{
    let rest = s.get(at..)?;
    let mut ascii = true;
    for (length, &b) in rest.iter().enumerate() {
        if b == 0 {
            if ascii || utf8_ok(&rest[..length]) {
                return Some(Span { place: at, length });
            }
            return None;
        }
        ascii &= b < 0x80;
    }
    None
}

// Whether two texts have the same bytes.
#[tactic(auto, using(crate::proofs::SameBytes::same_bytes_pointwise))]
pub fn same_text(a: &[u8], b: &[u8]) -> bool
    ensures { result ≡ same_bytes a.now b.now }
{
    a == b
}

// Whether no byte is NUL.
#[tactic(auto, using(crate::proofs::Strings::without_nul_found))]
pub fn without_nul(s: &[u8]) -> bool
    ensures { result ≡ without_nul s.now }
{
    !s.contains(&0)
}
