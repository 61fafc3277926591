// The canonical form.
ghost use Rattle.std.specs.Prelude.{◌≡◌, length as size, replicate};
ghost use Rattle.nontrefalcu.specs.Writing.{canonical_into};
ghost use Rattle.nontrefalcu.specs.Left.{TextLeft};

use crate::answer::hand_length;
use crate::header::header_at;
use reflection::Texts;
use tables::Reflection;

// `write::write_rdef_canonical` of the reflection that the header's words and the tables hold: 0, and the written length in `length`; or the refusal's
// number, and zeros in `out` and `length`. The scratch is zeroed in any case.
pub fn nontrefalcu_write_canonical<'a>(
    chunk: &'a [u8],
    edits: &'a [u8],
    header: &[u32],
    bindings: &[u32],
    buffers: &[u32],
    variables: &[u32],
    types: &[u32],
    scratch: &mut [u32],
    out: &mut [u8],
    length: &mut [u32],
) -> u32
    ensures text { TextLeft (canonical_into chunk.now edits.now header.now bindings.now
        buffers.now variables.now types.now scratch.old out.old)
        out.old out.new length.old length.new result }
    ensures scratch { scratch.new ≡ replicate (size scratch.old) 0 }
{
    let r = Reflection {
        def: header_at(header),
        bindings,
        buffers,
        variables,
        types,
    };
    let written = write::write_rdef_canonical(Texts { chunk, edits }, r, scratch, out);
    hand_length(written, length)
}
