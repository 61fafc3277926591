// The payload.
ghost use Rattle.std.specs.Prelude.{◌≡◌, length as size, replicate};
ghost use Rattle.nontrefalcu.specs.PayloadWords.{PayloadFits, payload_outcome, payload_into};
ghost use Rattle.nontrefalcu.specs.Left.{PayloadLeft};

use crate::answer::hand;
use crate::header::header_at;
use payload::Payload;
use reflection::{Refusal, Texts};
use tables::{Reflection, Tables};

// 0 for the chunk or 1 for the output, and how many bytes.
#[tactic(auto, unfolding(crate::specs::PayloadWords::payload_outcome))]
fn payload_words(
    payload: Result<Payload, Refusal>,
    chunk_length: usize,
) -> Result<[u32; 2], Refusal>
    requires { PayloadFits chunk_length payload }
    ensures { result ≡ payload_outcome chunk_length payload }
{
    Ok(match payload? {
        Payload::Chunk => [0, chunk_length as u32],
        Payload::Output(n) => [1, n as u32],
    })
}

// `payload::write_payload` of the reflection that the header's words and the tables hold: 0, and in `answer` 0 for the chunk or 1 for the output, and how
// many bytes; or the refusal's number, and zeros in `out` and `answer`. The four tables `found_…` and the scratch are zeroed in any case.
pub fn nontrefalcu_write_payload<'a>(
    chunk: &'a [u8],
    edits: &'a [u8],
    header: &[u32],
    bindings: &[u32],
    buffers: &[u32],
    variables: &[u32],
    types: &[u32],
    found_bindings: &mut [u32],
    found_buffers: &mut [u32],
    found_variables: &mut [u32],
    found_types: &mut [u32],
    scratch: &mut [u32],
    out: &mut [u8],
    answer: &mut [u32],
) -> u32
    ensures payload { PayloadLeft chunk.now
        (payload_into chunk.now edits.now header.now
        bindings.now buffers.now variables.now types.now
        found_bindings.old found_buffers.old found_variables.old found_types.old
        scratch.old out.old)
        out.old out.new answer.old answer.new result }
    ensures bindings { found_bindings.new ≡ replicate (size found_bindings.old) 0 }
    ensures buffers { found_buffers.new ≡ replicate (size found_buffers.old) 0 }
    ensures variables { found_variables.new ≡ replicate (size found_variables.old) 0 }
    ensures types { found_types.new ≡ replicate (size found_types.old) 0 }
    ensures scratch { scratch.new ≡ replicate (size scratch.old) 0 }
{
    let r = Reflection {
        def: header_at(header),
        bindings,
        buffers,
        variables,
        types,
    };
    let mut found = Tables {
        bindings: found_bindings,
        buffers: found_buffers,
        variables: found_variables,
        types: found_types,
    };
    let payload = payload::write_payload(Texts { chunk, edits }, r, &mut found, scratch, out);
    hand(payload_words(payload, chunk.len()), answer)
}
