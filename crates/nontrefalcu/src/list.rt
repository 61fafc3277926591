// The listing of bindings.
ghost use Rattle.nontrefalcu.specs.Exports.{listed_into};
ghost use Rattle.nontrefalcu.specs.Left.{TextLeft};

use crate::answer::hand_length;
use reflection::Texts;

// `listing::list_binding` of the binding that is record 0 of `binding_words`: 0, and the written length in `length`; or the refusal's number, and zeros
// everywhere.
pub fn nontrefalcu_list_binding<'a>(
    chunk: &'a [u8],
    edits: &'a [u8],
    binding_words: &[u32],
    out: &mut [u8],
    length: &mut [u32],
) -> u32
    ensures { TextLeft (listed_into chunk.now edits.now binding_words.now out.old)
        out.old out.new length.old length.new result }
{
    let b = tables::binding_at(binding_words, 0);
    let written = listing::list_binding(Texts { chunk, edits }, b, out);
    hand_length(written, length)
}
