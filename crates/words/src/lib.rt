// Little-endian numbers in bytes, parts of bytes, zeroing, and runs of items written into a table.
#![tactic(auto)]

ghost use Rattle.std.specs.Prelude.{◌≡◌, ◌++◌, ◌+◌, ◌-◌, ◌≤◌, ◌<◌, length, get_or, take, replicate};
ghost use Rattle.words.specs.Words.{half_at, word_at, word_if, low_at, high_at};
ghost use Rattle.words.specs.Parts.{inside, part};
ghost use Rattle.words.specs.Splice.{splice};

// No Option here and below: what lies past the end counts as 0, which keeps the definitions total (docs/DECISIONS.md).

// The byte at `at`, 0 past the end.
pub fn byte_at(s: &[u8], at: usize) -> u32
    ensures { (result ≡ get_or s.now at 0) × (result < 256) }
{
    s.get(at).map_or(0, |&b| u32::from(b))
}

// The two bytes at `at` as a number; what lies past the end counts as 0.
#[tactic(auto, unfolding(crate::specs::Words::half_at))]
pub fn half_at(s: &[u8], at: usize) -> u32
    ensures { (result ≡ half_at s.now at) × (result < 65536) }
{
    // The early return keeps the place from wrapping.
    if s.len() <= at {
        return 0;
    }
    byte_at(s, at) + 256 * byte_at(s, at + 1)
}

// The four bytes at `at` as a number; what lies past the end counts as 0. Mostly all four are there: one test, and one load of the machine.
#[tactic(auto, unfolding(crate::specs::Words::half_at, crate::specs::Words::word_at), using(crate::proofs::Parts::inside_fits))]
pub fn word_at(s: &[u8], at: usize) -> u32
    ensures { result ≡ word_at s.now at }
{
    if inside(s.len(), at, 4) {
        let bytes = [s[at], s[at + 1], s[at + 2], s[at + 3]];
        return u32::from_le_bytes(bytes);
    }
    let Some(rest) = s.get(at..) else {
        return 0;
    };
    half_at(rest, 0) + 65536 * half_at(rest, 2)
}

// The word at `at` of a record that may have it, else 0.
// Words that major 4 has not are 0 (docs/DECISIONS.md).
#[tactic(auto, unfolding(crate::specs::Words::word_if))]
pub fn word_if(s: &[u8], present: bool, at: usize) -> u32
    ensures { result ≡ word_if present s.now at }
{
    if present { word_at(s, at) } else { 0 }
}

// The lower half of the word at `at`.
#[tactic(auto, unfolding(crate::specs::Words::low_at))]
pub fn low_at(s: &[u8], at: usize) -> u32
    ensures { result ≡ low_at s.now at }
{
    word_at(s, at) % 65536
}

// The upper half of the word at `at`.
#[tactic(auto, unfolding(crate::specs::Words::high_at))]
pub fn high_at(s: &[u8], at: usize) -> u32
    ensures { result ≡ high_at s.now at }
{
    word_at(s, at) / 65536
}

// Whether `size` bytes from `at` on lie within `len` bytes. By hand: `at + size` may wrap, so `get` would have to be asked twice.
#[tactic(auto, unfolding(crate::specs::Parts::inside))]
pub fn inside(len: usize, at: usize, size: usize) -> bool
    ensures { result ≡ inside len at size }
{
    size <= len && at <= len - size
}

// The `n` bytes from `place` on. No Option: a part out of place is the empty part (docs/FORMAT.md).
#[tactic(auto, unfolding(crate::specs::Parts::inside, crate::specs::Parts::part))]
pub fn part<'a>(s: &'a [u8], place: usize, n: usize) -> &'a [u8]
    ensures { result.now ≡ part s.now place n }
{
    if inside(s.len(), place, n) {
        &s[place..place + n]
    } else {
        &[]
    }
}

// Sets every word from `at` on to 0.
pub fn clear_from(words: &mut [u32], at: usize)
    ensures { words.new ≡ take at words.old ++ replicate (length words.old - at) 0 }
{
    if at < words.len() {
        words[at..].fill(0);
    }
}

// Sets every word to 0.
pub fn clear(words: &mut [u32])
    ensures { words.new ≡ replicate (length words.old) 0 }
{
    words.fill(0);
}

// Writes `items` over the table from `at` on; what would lie past the table's end is dropped.
#[tactic(auto, using(crate::proofs::Splice::splice_cons, crate::proofs::Splice::splice_none, crate::proofs::Splice::splice_past_end))]
pub fn overwrite<T: Copy>(table: &mut [T], at: usize, items: &[T])
    ensures { table.new ≡ splice table.old at items.now }
{
    for (place, item) in (at..table.len()).zip(items) {
        table[place] = *item;
    }
}
