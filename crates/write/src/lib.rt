// Writing a reflection in its canonical form (document 01, "Canonical form").
#![tactic(auto)]

ghost use Rattle.std.specs.Prelude.{◌≡◌, length, replicate};
ghost use Rattle.write.specs.WriteInto.{write_into, WrittenInto};

use reflection::{Refusal, Texts};
use tables::Reflection;
use text_output::Output;

// Writes the canonical form, or refuses; the scratch is left as it comes.
fn write_tables(
    texts: Texts<'_>,
    r: Reflection<'_>,
    scratch: &mut [u32],
    out: &mut [u8],
) -> Result<usize, Refusal>
    ensures written { WrittenInto (write_into scratch.old out.old texts.entry.chunk.now texts.entry.edits.now r.entry.def
        r.entry.bindings.now r.entry.buffers.now r.entry.variables.now r.entry.types.now) out.old out.new result }
    ensures scratch { length scratch.new ≡ length scratch.old }
{
    if scratch.len() < write_spec::SCRATCH_WORDS {
        return text_output::refuse(out, Refusal::NoRoom);
    }
    if !readable::readable(texts, r) {
        return text_output::refuse(out, Refusal::NotReadable);
    }
    let mut written = Output { bytes: out, at: 0 };
    write_tables::write_chunk(texts, r, scratch, &mut written);
    written.finish()
}

// Writes the canonical form of the reflection that the tables hold. 15 where the scratch is shorter than `write_spec::SCRATCH_WORDS`, 16 where the
// reflection is not readable, 17 where the form is longer than the output or than 65,536 bytes. The scratch is zeroed in any case, the output by a
// refusal; bytes past the written length are as they were.
pub fn write_rdef_canonical(
    texts: Texts<'_>,
    r: Reflection<'_>,
    scratch: &mut [u32],
    out: &mut [u8],
) -> Result<usize, Refusal>
    ensures written { WrittenInto (write_into scratch.old out.old texts.entry.chunk.now texts.entry.edits.now r.entry.def
        r.entry.bindings.now r.entry.buffers.now r.entry.variables.now r.entry.types.now) out.old out.new result }
    ensures scratch { scratch.new ≡ replicate (length scratch.old) 0 }
{
    let written = write_tables(texts, r, scratch, out);
    words::clear_from(scratch, 0);
    written
}
