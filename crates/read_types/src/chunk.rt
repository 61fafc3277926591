// A chunk, and a record in it.
ghost use Rattle.std.specs.Prelude.{◌≡◌, ◌+◌, ◌≤◌, length, MatchResult};
ghost use Rattle.words.specs.Words.{word_at, word_if, low_at, high_at};
ghost use Rattle.text.specs.Strings.{cstring_at};
ghost use Rattle.reflection.specs.Limits.{chunk_limit};
ghost use Rattle.reflection.specs.declared.refusal.Refusal.TheVariants.{BadName};
ghost use Rattle.read_types.specs.Found.{found_or};

use crate::found::string_at;
use reflection::{Refusal, Text};

// A chunk, with what its header says: whether it is of major 5, and whether its bindings have space and id.
#[derive(Clone, Copy)]
pub struct Chunk<'a> {
    pub bytes: &'a [u8],
    pub sm5: bool,
    pub wide: bool,
    pub ghost within: { length bytes.now ≤ chunk_limit },
}

// A record of a chunk, from `at` on.
#[derive(Clone, Copy)]
pub struct Record<'a> {
    pub chunk: Chunk<'a>,
    pub at: usize,
    pub ghost near: { at ≤ chunk_limit },
}

// Records of a chunk: `count` of them, the next of them at `at`.
#[derive(Clone, Copy)]
pub struct Records<'a> {
    pub chunk: Chunk<'a>,
    pub at: usize,
    pub count: u32,
}

impl<'a> Chunk<'a> {
    ghost use Rattle.read_types.specs.Chunk.{RecordAt, RecordOutside};

    // The record of `size` bytes from `at` on, or a refusal where it runs past the chunk's end.
    #[tactic(auto, using(words::proofs::Parts::inside_fits))]
    pub fn record(self, at: usize, size: usize) -> Result<Record<'a>, Refusal>
        ensures { MatchResult result (RecordAt self.entry at size) (RecordOutside self.entry at size) }
    {
        if words::inside(self.bytes.len(), at, size) {
            Ok(Record { chunk: self, at })
        } else {
            Err(Refusal::RecordPastEnd)
        }
    }
}

impl<'a> Records<'a> {
    ghost use Rattle.read_types.specs.Chunk.{Taken, RecordOutside};

    // The next record, of `size` bytes, or a refusal where it runs past the chunk's end.
    #[tactic(auto, using(words::proofs::Parts::inside_fits))]
    pub fn next(&mut self, size: usize) -> Result<Record<'a>, Refusal>
        ensures { MatchResult result (Taken self.old self.new size) (RecordOutside self.old.chunk self.old.at size) }
    {
        let record = self.chunk.record(self.at, size)?;
        self.at += size;
        Ok(record)
    }
}

impl Record<'_> {
    // The word so many bytes from the record's first on; what lies past the chunk's end counts as 0.
    pub fn word(self, offset: u32) -> u32
        ensures { result ≡ word_at self.entry.chunk.bytes.now (self.entry.at + offset) }
    {
        words::word_at(self.chunk.bytes, self.at + offset as usize)
    }

    // The same of a record that may have it, else 0.
    pub fn word_if(self, present: bool, offset: u32) -> u32
        ensures { result ≡ word_if present self.entry.chunk.bytes.now (self.entry.at + offset) }
    {
        words::word_if(self.chunk.bytes, present, self.at + offset as usize)
    }

    // The lower half of the word.
    pub fn low(self, offset: u32) -> u32
        ensures { result ≡ low_at self.entry.chunk.bytes.now (self.entry.at + offset) }
    {
        words::low_at(self.chunk.bytes, self.at + offset as usize)
    }

    // The upper half of the word.
    pub fn high(self, offset: u32) -> u32
        ensures { result ≡ high_at self.entry.chunk.bytes.now (self.entry.at + offset) }
    {
        words::high_at(self.chunk.bytes, self.at + offset as usize)
    }

    // The record's name: the string that its first word leads to.
    #[tactic(auto, using(crate::proofs::Names::or_refused))]
    pub fn name(self) -> Result<Text, Refusal>
        ensures { result ≡ found_or BadName (cstring_at self.entry.chunk.bytes.now (word_at self.entry.chunk.bytes.now self.entry.at)) }
    {
        let offset = words::word_at(self.chunk.bytes, self.at);
        string_at(self.chunk.bytes, offset).ok_or(Refusal::BadName)
    }
}
