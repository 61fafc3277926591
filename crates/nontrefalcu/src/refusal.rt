// The sentences of refusals.
ghost use Rattle.nontrefalcu.specs.Exports.{sentence_into};
ghost use Rattle.nontrefalcu.specs.Left.{TextLeft};

use crate::answer::hand_length;

// `refusal_text::refusal_text`: 0, and the written length in `length`; or 17, and zeros everywhere. A number that is no refusal's has the empty text.
pub fn nontrefalcu_refusal_text(number: u32, out: &mut [u8], length: &mut [u32]) -> u32
    ensures { TextLeft (sentence_into number out.old)
        out.old out.new length.old length.new result }
{
    let written = refusal_text::refusal_text(number, out);
    hand_length(written, length)
}
