// What is looked for in a pool.
ghost use Rattle.std.specs.Prelude.{◌≡◌, ◌+◌, ◌*◌, ◌%◌};
ghost use Rattle.write_pool.specs.Pool.{bucket_count, bucket_of};

use crate::BUCKET_COUNT;

// A text's bytes, with the bucket that they fall into.
#[derive(Clone, Copy)]
pub struct Wanted<'a> {
    pub bytes: &'a [u8],
    pub bucket: usize,
    pub ghost in_bucket: { bucket ≡ bucket_of bytes.now },
}

impl<'a> Wanted<'a> {
    // The hash is taken by words of four bytes, of which the last may be cut.
    pub fn new(bytes: &'a [u8]) -> Wanted<'a>
        ensures { result.bytes.now ≡ bytes.now }
    {
        let mut hash = 0;
        let (words, rest) = bytes.as_chunks::<4>();
        for word in words {
            hash = hash_more(hash, u32::from_le_bytes(*word));
        }
        if !rest.is_empty() {
            hash = hash_more(hash, words::word_at(rest, 0));
        }
        Wanted {
            bytes,
            bucket: hash_bucket(hash),
        }
    }
}

// A hash with one more word of the text.
fn hash_more(hash: u32, word: u32) -> u32
    ensures { result ≡ (hash * 31 + word) % 4294967296 }
{
    hash.wrapping_mul(31).wrapping_add(word)
}

// The bucket of a hash.
fn hash_bucket(hash: u32) -> usize
    ensures { result ≡ hash % 65521 % bucket_count }
{
    hash as usize % 65521 % BUCKET_COUNT
}
