// What each refusal says, as a sentence.
#![tactic(auto)]

ghost use Rattle.std.specs.Prelude.{◌≡◌, Ok};
ghost use Rattle.reflection.specs.Refusals.{refusal_number};
ghost use Rattle.text_output.specs.Written.{Answers};
ghost use Rattle.refusal_text.specs.Sentences.{sentence};

use reflection::Refusal;
use text_output::Output;

// What a refusal says.
#[tactic(auto, unfolding(crate::specs::Sentences::sentence))]
pub fn sentence(refusal: Refusal) -> &'static str
    ensures { result.now ≡ sentence (refusal_number refusal) }
{
    match refusal {
        Refusal::ChunkTooShort => "the chunk has fewer than 28 bytes",
        Refusal::ChunkTooLong => "the chunk has more than 65,536 bytes",
        Refusal::BadVersion => "the major version is neither 4 nor 5",
        Refusal::BadCreator => {
            "the creator lies past the end of the chunk, has no NUL or is not UTF-8"
        }
        Refusal::Rd11Missing => "the chunk has major version 5 and fewer than 60 bytes",
        Refusal::BadRd11 => "a word of the RD11 header is not allowed",
        Refusal::RecordPastEnd => "a record or a type descriptor runs past the end of the chunk",
        Refusal::BadInputType => "the input type of a binding is above 13",
        Refusal::BadDimension => "the dimension of a binding is above 11",
        Refusal::BadBindingFlags => "the flags of a binding have a bit outside 0x1f",
        Refusal::BadName => "a name lies past the end of the chunk, has no NUL or is not UTF-8",
        Refusal::DefaultPastEnd => "a default value runs past the end of the chunk",
        Refusal::TypeTooDeep => "types are nested deeper than 64 levels below a variable's type",
        Refusal::TypeCycle => "a type descriptor lies on the path to itself",
        Refusal::NoRoom => {
            "there is no room for one more record, or the scratch table is too short"
        }
        Refusal::NotReadable => {
            "the reflection is not readable: a number, a name or a default value is not one that a chunk can hold"
        }
        Refusal::OutputTooSmall => {
            "the output is too small, or more than 65,536 bytes would be written"
        }
        Refusal::NoSpelling => "the type has no spelling, or the text spells no type",
    }
}

// What the refusal says that has a number; the empty text for a number that is no refusal's.
pub fn sentence_of(number: u32) -> &'static str
    ensures { result.now ≡ sentence number }
{
    Refusal::try_from(number).map_or("", sentence)
}

// The same to a lent output.
pub fn refusal_text(number: u32, out: &mut [u8]) -> Result<usize, Refusal>
    ensures { Answers (Ok (sentence number)) out.old out.new result }
{
    let text = sentence_of(number);
    let mut written = Output { bytes: out, at: 0 };
    written.put_bytes(text.as_bytes());
    written.finish()
}
