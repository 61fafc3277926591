// Reading a chunk.
ghost use Rattle.std.specs.Prelude.{◌≡◌};
ghost use Rattle.read.specs.Parsed.{read_into};
ghost use Rattle.nontrefalcu.specs.Left.{ParseLeft};

use crate::answer::hand;
use crate::header::header_words;
use tables::Tables;

// `read::parse_rdef` with its answer as numbers: 0, and the header's words in `header`; or the refusal's number, and zeros everywhere.
pub fn nontrefalcu_parse_rdef(
    chunk: &[u8],
    header: &mut [u32],
    bindings: &mut [u32],
    buffers: &mut [u32],
    variables: &mut [u32],
    types: &mut [u32],
) -> u32
    ensures { ParseLeft
        (read_into chunk.now bindings.old buffers.old variables.old types.old)
        header.old bindings.old buffers.old variables.old types.old
        header.new bindings.new buffers.new variables.new types.new result }
{
    let mut tables = Tables {
        bindings,
        buffers,
        variables,
        types,
    };
    let parsed = read::parse_rdef(chunk, &mut tables);
    hand(parsed.map(header_words), header)
}
