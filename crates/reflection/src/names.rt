// Names and defaults as parts of the lent text that holds them: the chunk, or the text of edits.
ghost use Rattle.std.specs.Prelude.{◌≡◌, option_map};
ghost use Rattle.reflection.specs.Texts.{in_chunk, source_of, in_place, text_bytes, name_place};

use crate::{Refusal, Text};

// The two lent texts in which names and defaults lie.
#[derive(Clone, Copy)]
pub struct Texts<'a> {
    pub chunk: &'a [u8],
    pub edits: &'a [u8],
}

// The text of `length` bytes from `place` on in the chunk.
pub fn in_chunk(place: u32, length: u32) -> Text
    ensures { result ≡ in_chunk place length }
{
    Text {
        source: 0,
        place,
        length,
    }
}

impl<'a> Texts<'a> {
    // The lent text that a source names, if it names one.
    pub fn source_of(self, source: u32) -> Option<&'a [u8]>
        ensures { option_map (λ s. s.now) result ≡ source_of self.entry.chunk.now self.entry.edits.now source }
    {
        match source {
            0 => Some(self.chunk),
            1 => Some(self.edits),
            _ => None,
        }
    }

    // Whether `text` lies in the lent text that its source names.
    #[tactic(auto, unfolding(crate::specs::Texts::in_place))]
    pub fn in_place(self, text: Text) -> bool
        ensures { result ≡ in_place self.entry.chunk.now self.entry.edits.now text }
    {
        let place = text.place as usize;
        let length = text.length as usize;
        self.source_of(text.source)
            .is_some_and(|held| words::inside(held.len(), place, length))
    }

    // A name's bytes, as a part of whichever text holds it and no copy; the empty part where its place lies outside.
    #[tactic(auto, unfolding(crate::specs::Texts::text_bytes))]
    pub fn name_part(self, name: Text) -> &'a [u8]
        ensures { result.now ≡ text_bytes self.entry.chunk.now self.entry.edits.now name }
    {
        let place = name.place as usize;
        let length = name.length as usize;
        self.source_of(name.source)
            .map_or(&[], |held| words::part(held, place, length))
    }

    // What stands beside `name_part`: whether the part that it hands back is the name, or a refusal.
    // Two calls, as docs/FORMAT.md has them: `name_part` cannot fail.
    pub fn name_refusal(self, name: Text) -> Result<(), Refusal>
        ensures { result ≡ name_place (in_place self.entry.chunk.now self.entry.edits.now name) }
    {
        if self.in_place(name) {
            Ok(())
        } else {
            Err(Refusal::NotReadable)
        }
    }
}
