// Demands 2 and 3 of document 01 as contracts of functions that make the calls: the canonical form is written, and read from the output that it was written to.
#![tactic(auto)]

ghost use Rattle.std.specs.Prelude.{◌≡◌};
ghost use Rattle.theorem_functions.specs.Calls.{lent_in, left_in, WroteAndRead, what_was_read};
ghost use Rattle.theorem_functions.specs.Sides.{lent_by, left_with, SameSide};
ghost use Rattle.theorem_functions.specs.Words.{WordsLent, LentWords};
ghost use Rattle.theorem_functions.specs.Noninterference.{Noninterference};
ghost use Rattle.theorem_functions.specs.RoundTrip.{RoundTrip};

use reflection::{Refusal, ResourceDef, Texts};
use tables::Reflection;
use whole_tables::WholeTables;

// What one of two sides lends: a reflection with its texts, the scratch and the output to write it, and the tables to read the written bytes into.
#[derive(Drop)]
pub struct Side<'r, 's, 'o, 'f> {
    pub texts: Texts<'r>,
    pub r: Reflection<'r>,
    pub scratch: &'s mut [u32],
    pub out: &'o mut [u8],
    pub found: &'f mut WholeTables,
}

// What came of a reflection that was written and read again: how many bytes were written, and what these read as.
#[derive(Clone, Copy)]
pub struct WrittenAndRead {
    pub length: usize,
    pub parsed: Result<ResourceDef, Refusal>,
}

// The same of two reflections.
#[derive(Clone, Copy)]
pub struct WrittenPair {
    pub a: Result<WrittenAndRead, Refusal>,
    pub b: Result<WrittenAndRead, Refusal>,
}

// The same of one reflection, and what came of writing again what was read.
#[derive(Clone, Copy)]
pub struct WrittenTwice {
    pub first: Result<WrittenAndRead, Refusal>,
    pub again: Result<usize, Refusal>,
}

// What is lent as words is words: the types say it, for the proofs of the demands.
fn lent_words(def: ResourceDef, bindings: &[u32], buffers: &[u32], variables: &[u32], types: &[u32])
    ensures { WordsLent def bindings.now buffers.now variables.now types.now }
{}

// Writes the canonical form and reads the written bytes into tables of the whole room. A refusal leaves zeros there too.
pub fn write_and_read(
    texts: Texts<'_>,
    r: Reflection<'_>,
    scratch: &mut [u32],
    out: &mut [u8],
    found: &mut WholeTables,
) -> Result<WrittenAndRead, Refusal>
    ensures calls { WroteAndRead
        (lent_in texts.entry r.entry scratch.old out.old)
        (left_in scratch.new out.new found.new)
        result }
    ensures words { LentWords (lent_in texts.entry r.entry scratch.old out.old) }
{
    lent_words(r.def, r.bindings, r.buffers, r.variables, r.types);
    match write::write_rdef_canonical(texts, r, scratch, out) {
        Err(refusal) => {
            found.clear();
            Err(refusal)
        }
        Ok(n) => {
            let parsed = found.read(words::part(out, 0, n));
            Ok(WrittenAndRead { length: n, parsed })
        }
    }
}

// Demand 3: two reflections, each written and read again (specs/Noninterference.antt).
pub fn write_pair(a: &mut Side<'_, '_, '_, '_>, b: &mut Side<'_, '_, '_, '_>) -> WrittenPair
    ensures calls { Noninterference (lent_by a.old) (lent_by b.old) (left_with a.new) (left_with b.new) result }
    ensures same_a { SameSide a.old a.new }
    ensures same_b { SameSide b.old b.new }
{
    let answer_a = write_and_read(a.texts, a.r, a.scratch, a.out, a.found);
    let answer_b = write_and_read(b.texts, b.r, b.scratch, b.out, b.found);
    WrittenPair {
        a: answer_a,
        b: answer_b,
    }
}

// How many bytes were written, and the header of what they read as.
#[tactic(auto, unfolding(crate::specs::Calls::what_was_read, crate::specs::Calls::with_length))]
fn what_was_read(first: Result<WrittenAndRead, Refusal>) -> Result<(usize, ResourceDef), Refusal>
    ensures { result ≡ what_was_read first }
{
    let written = first?;
    Ok((written.length, written.parsed?))
}

// Demand 2: a reflection is written and read, and what was read is written again (specs/RoundTrip.antt).
pub fn write_read_write(
    texts: Texts<'_>,
    r: Reflection<'_>,
    scratch: &mut [u32],
    out: &mut [u8],
    found: &mut WholeTables,
    second: &mut [u8],
) -> WrittenTwice
    ensures { RoundTrip
        (lent_in texts.entry r.entry scratch.old out.old)
        (left_in scratch.new out.new found.new)
        second.old second.new result }
{
    let first = write_and_read(texts, r, scratch, out, found);
    let again = match what_was_read(first) {
        Err(refusal) => text_output::refuse(second, refusal),
        Ok((length, def)) => {
            let texts = Texts {
                chunk: words::part(out, 0, length),
                edits: &[],
            };
            write::write_rdef_canonical(texts, found.reflection(def), scratch, second)
        }
    };
    WrittenTwice { first, again }
}
