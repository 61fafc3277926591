// A header as words, and read back.
ghost use Rattle.std.specs.Prelude.{◌≡◌, get_or};
ghost use Rattle.nontrefalcu.specs.Exports.{header_at, header_words_in_table};

use reflection::{HEADER_WORDS, Rd11Header, ResourceDef, Text};

// The header's words.
#[tactic(auto, unfolding(crate::specs::Exports::header_words_in_table))]
pub(crate) fn header_words(def: ResourceDef) -> [u32; HEADER_WORDS]
    ensures { result ≡ header_words_in_table def }
{
    let creator = def.creator;
    let rd11 = def.rd11;
    [
        def.target_version,
        def.compile_flags,
        creator.source,
        creator.place,
        creator.length,
        rd11.identifier,
        rd11.resource_binding_stride,
        rd11.interface_slot_count,
        def.binding_count,
        def.buffer_count,
        def.variable_count,
        def.type_count,
    ]
}

// Word i, 0 past the end.
fn word_of(words: &[u32], i: usize) -> u32
    ensures { result ≡ get_or words.now i 0 }
{
    words.get(i).map_or(0, |&word| word)
}

// The header of these words; those that are missing are 0: C may lend fewer words (docs/ROOM.md).
#[tactic(auto, unfolding(crate::specs::Exports::header_at))]
pub(crate) fn header_at(words: &[u32]) -> ResourceDef
    ensures { result ≡ header_at words.now }
{
    ResourceDef {
        target_version: word_of(words, 0),
        compile_flags: word_of(words, 1),
        creator: Text::from([word_of(words, 2), word_of(words, 3), word_of(words, 4)]),
        rd11: Rd11Header {
            identifier: word_of(words, 5),
            resource_binding_stride: word_of(words, 6),
            interface_slot_count: word_of(words, 7),
        },
        binding_count: word_of(words, 8),
        buffer_count: word_of(words, 9),
        variable_count: word_of(words, 10),
        type_count: word_of(words, 11),
    }
}
