// The spelling of types, written and read.
ghost use Rattle.std.specs.Prelude.{◌≡◌, length as size};
ghost use Rattle.nontrefalcu.specs.Exports.{number_of, spelling_table, spelling_words, type_name_into, declaration_into, type_read};
ghost use Rattle.nontrefalcu.specs.Left.{TextLeft};

use crate::answer::{hand, hand_length};
use reflection::Texts;
use spelling_parse::TypeSpelling;

// `spelling::hlsl_type_name` of the type that is record 0 of `type_words`: 0, and the written length in `length`; or the refusal's number, and zeros
// everywhere.
pub fn nontrefalcu_type_name<'a>(
    chunk: &'a [u8],
    edits: &'a [u8],
    type_words: &[u32],
    out: &mut [u8],
    length: &mut [u32],
) -> u32
    ensures { TextLeft (type_name_into chunk.now edits.now type_words.now out.old)
        out.old out.new length.old length.new result }
{
    let t = tables::type_at(type_words, 0);
    let written = spelling::hlsl_type_name(Texts { chunk, edits }, t, out);
    hand_length(written, length)
}

// `spelling::declaration` of the type that is record 0 of `type_words` and the variable that is record 0 of `variable_words`, answered in the same way.
pub fn nontrefalcu_declaration<'a>(
    chunk: &'a [u8],
    edits: &'a [u8],
    type_words: &[u32],
    variable_words: &[u32],
    out: &mut [u8],
    length: &mut [u32],
) -> u32
    ensures { TextLeft (declaration_into chunk.now edits.now type_words.now variable_words.now
        out.old)
        out.old out.new length.old length.new result }
{
    let t = tables::type_at(type_words, 0);
    let name = tables::variable_at(variable_words, 0).name;
    let written = spelling::declaration(Texts { chunk, edits }, t, name, out);
    hand_length(written, length)
}

// A spelling's numbers.
#[tactic(auto, unfolding(crate::specs::Exports::spelling_words))]
fn spelling_words(s: TypeSpelling) -> [u32; 5]
    ensures { result ≡ spelling_words s }
{
    [s.class, s.base, s.rows, s.columns, s.elements]
}

// `spelling_parse::parse_hlsl_type`: 0, and class, base, rows, columns and elements in `numbers`; or 18, and zeros.
pub fn nontrefalcu_parse_type(text: &[u8], numbers: &mut [u32]) -> u32
    ensures answer { result ≡ number_of (type_read text.now) }
    ensures numbers { numbers.new ≡ spelling_table (type_read text.now) (size numbers.old) }
{
    let spelled = spelling_parse::parse_hlsl_type(text);
    hand(spelled.map(spelling_words), numbers)
}
