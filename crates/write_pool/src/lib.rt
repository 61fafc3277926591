// A pool of texts in lent words, with an index (specs/Pool.antt says how the words lie).
#![tactic(auto)]

ghost use Rattle.std.specs.Prelude.{◌≡◌, ◌+◌, ◌*◌, ◌≤◌, length};
ghost use Rattle.text.specs.Same.{same_bytes};
ghost use Rattle.reflection.specs.Texts.{text_bytes};
ghost use Rattle.write_spec.specs.Step.{find};
ghost use Rattle.write_pool.specs.Pool.{entries_start, entry_width, bucket_of, entries, entry_count, Indexed};
ghost use Rattle.write_pool.specs.Pool.{Begun, Remembered};

mod wanted;

use reflection::{Text, Texts};
pub use wanted::Wanted;

// The words are those of a lent scratch, so a link is one more than an entry's index and 0 is none: zeroed words are the empty pool.
const BUCKET_COUNT: usize = 1024;

// Where the entries begin, after the count and the links, and how many words an entry has.
const ENTRIES_START: usize = 1 + BUCKET_COUNT;

const ENTRY_WIDTH: usize = 5;

// Makes the words a pool without entries, whatever lay there.
pub fn begin(pool: &mut [u32])
    ensures { Begun pool.old pool.new }
{
    let n = pool.len().min(ENTRIES_START);
    pool[..n].fill(0);
}

// The offset of the newest entry that has the bytes of `wanted`. Only the entries of its bucket are looked at.
#[tactic(auto, using(crate::proofs::Hashes::bucket_is_below_count))]
pub fn find_text(texts: Texts<'_>, pool: &[u32], wanted: Wanted<'_>) -> Option<u32>
    requires { Indexed texts.chunk.now texts.edits.now pool.now }
    ensures { result ≡ find (λ t. same_bytes wanted.entry.bytes.now (text_bytes texts.entry.chunk.now texts.entry.edits.now t))
        (entries pool.now) }
{
    let mut link = pool[1 + wanted.bucket];
    while link > 0 {
        let at = ENTRIES_START + (link - 1) as usize * ENTRY_WIDTH;
        let text = Text::from([pool[at], pool[at + 1], pool[at + 2]]);
        if text::same_text(wanted.bytes, texts.name_part(text)) {
            return Some(pool[at + 3]);
        }
        link = pool[at + 4];
    }
    None
}

// Adds an entry for a text, which has the bytes of `wanted`: the newest of its bucket.
#[tactic(auto, unfolding(crate::specs::Pool::entry_count), using(crate::proofs::Hashes::bucket_is_below_count))]
pub fn remember(pool: &mut [u32], text: Text, wanted: Wanted<'_>, offset: u32)
    requires entry_width_in_bounds { entries_start + (entry_count pool.old + 1) * entry_width ≤ length pool.old }
    requires pool_len_bound { length pool.old ≤ 4294967296 }
    ensures { Remembered pool.old text (bucket_of wanted.entry.bytes.now) offset pool.new }
{
    let count = pool[0];
    let head = 1 + wanted.bucket;
    let entry = [text.source, text.place, text.length, offset, pool[head]];
    words::overwrite(pool, ENTRIES_START + count as usize * ENTRY_WIDTH, &entry);
    pool[0] = count + 1;
    pool[head] = count + 1;
}
