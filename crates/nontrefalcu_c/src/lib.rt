// What C and Rust link: each function of the library `nontrefalcu` under its own name, with the same contract (include/nontrefalcu.h).
// They stand in a crate of their own: a crate is a library or a static library (docs/PORT.md).
#![tactic(auto)]

ghost use Rattle.std.specs.Prelude.{◌≡◌, length as size, replicate};
ghost use Rattle.read.specs.Parsed.{read_into};
ghost use Rattle.nontrefalcu.specs.Exports.{number_of, spelling_table, type_name_into, declaration_into, type_read, listed_into, sentence_into};
ghost use Rattle.nontrefalcu.specs.Left.{ParseLeft, TextLeft, PayloadLeft};
ghost use Rattle.nontrefalcu.specs.PayloadWords.{payload_into};
ghost use Rattle.nontrefalcu.specs.Writing.{canonical_into};

// Reads a chunk.
#[unsafe(no_mangle)]
pub extern "C" fn nontrefalcu_parse_rdef(
    chunk: &[u8],
    header: &mut [u32],
    bindings: &mut [u32],
    buffers: &mut [u32],
    variables: &mut [u32],
    types: &mut [u32],
) -> u32
    ensures { ParseLeft
        (read_into chunk.now bindings.old buffers.old variables.old types.old)
        header.old bindings.old buffers.old variables.old types.old
        header.new bindings.new buffers.new variables.new types.new result }
{
    nontrefalcu::nontrefalcu_parse_rdef(chunk, header, bindings, buffers, variables, types)
}

// Writes the canonical form.
#[unsafe(no_mangle)]
pub extern "C" fn nontrefalcu_write_canonical<'a>(
    chunk: &'a [u8],
    edits: &'a [u8],
    header: &[u32],
    bindings: &[u32],
    buffers: &[u32],
    variables: &[u32],
    types: &[u32],
    scratch: &mut [u32],
    out: &mut [u8],
    length: &mut [u32],
) -> u32
    ensures text { TextLeft (canonical_into chunk.now edits.now header.now bindings.now
        buffers.now variables.now types.now scratch.old out.old)
        out.old out.new length.old length.new result }
    ensures scratch { scratch.new ≡ replicate (size scratch.old) 0 }
{
    nontrefalcu::nontrefalcu_write_canonical(
        chunk, edits, header, bindings, buffers, variables, types, scratch, out, length,
    )
}

// Writes the payload.
#[unsafe(no_mangle)]
pub extern "C" fn nontrefalcu_write_payload<'a>(
    chunk: &'a [u8],
    edits: &'a [u8],
    header: &[u32],
    bindings: &[u32],
    buffers: &[u32],
    variables: &[u32],
    types: &[u32],
    found_bindings: &mut [u32],
    found_buffers: &mut [u32],
    found_variables: &mut [u32],
    found_types: &mut [u32],
    scratch: &mut [u32],
    out: &mut [u8],
    answer: &mut [u32],
) -> u32
    ensures payload { PayloadLeft chunk.now
        (payload_into chunk.now edits.now header.now
        bindings.now buffers.now variables.now types.now
        found_bindings.old found_buffers.old found_variables.old found_types.old
        scratch.old out.old)
        out.old out.new answer.old answer.new result }
    ensures bindings { found_bindings.new ≡ replicate (size found_bindings.old) 0 }
    ensures buffers { found_buffers.new ≡ replicate (size found_buffers.old) 0 }
    ensures variables { found_variables.new ≡ replicate (size found_variables.old) 0 }
    ensures types { found_types.new ≡ replicate (size found_types.old) 0 }
    ensures scratch { scratch.new ≡ replicate (size scratch.old) 0 }
{
    nontrefalcu::nontrefalcu_write_payload(
        chunk,
        edits,
        header,
        bindings,
        buffers,
        variables,
        types,
        found_bindings,
        found_buffers,
        found_variables,
        found_types,
        scratch,
        out,
        answer,
    )
}

// Lists a binding.
#[unsafe(no_mangle)]
pub extern "C" fn nontrefalcu_list_binding<'a>(
    chunk: &'a [u8],
    edits: &'a [u8],
    binding_words: &[u32],
    out: &mut [u8],
    length: &mut [u32],
) -> u32
    ensures { TextLeft (listed_into chunk.now edits.now binding_words.now out.old)
        out.old out.new length.old length.new result }
{
    nontrefalcu::nontrefalcu_list_binding(chunk, edits, binding_words, out, length)
}

// Spells a type.
#[unsafe(no_mangle)]
pub extern "C" fn nontrefalcu_type_name<'a>(
    chunk: &'a [u8],
    edits: &'a [u8],
    type_words: &[u32],
    out: &mut [u8],
    length: &mut [u32],
) -> u32
    ensures { TextLeft (type_name_into chunk.now edits.now type_words.now out.old)
        out.old out.new length.old length.new result }
{
    nontrefalcu::nontrefalcu_type_name(chunk, edits, type_words, out, length)
}

// Spells the declaration of a variable.
#[unsafe(no_mangle)]
pub extern "C" fn nontrefalcu_declaration<'a>(
    chunk: &'a [u8],
    edits: &'a [u8],
    type_words: &[u32],
    variable_words: &[u32],
    out: &mut [u8],
    length: &mut [u32],
) -> u32
    ensures { TextLeft (declaration_into chunk.now edits.now type_words.now variable_words.now
        out.old)
        out.old out.new length.old length.new result }
{
    nontrefalcu::nontrefalcu_declaration(chunk, edits, type_words, variable_words, out, length)
}

// Reads the spelling of a type.
#[unsafe(no_mangle)]
pub extern "C" fn nontrefalcu_parse_type(text: &[u8], numbers: &mut [u32]) -> u32
    ensures answer { result ≡ number_of (type_read text.now) }
    ensures numbers { numbers.new ≡ spelling_table (type_read text.now) (size numbers.old) }
{
    nontrefalcu::nontrefalcu_parse_type(text, numbers)
}

// The sentence of a refusal.
#[unsafe(no_mangle)]
pub extern "C" fn nontrefalcu_refusal_text(number: u32, out: &mut [u8], length: &mut [u32]) -> u32
    ensures { TextLeft (sentence_into number out.old)
        out.old out.new length.old length.new result }
{
    nontrefalcu::nontrefalcu_refusal_text(number, out, length)
}
