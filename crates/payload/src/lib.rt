// The payload of a reflection: the chunk itself where nothing was edited, else its canonical form (document 01, "What a reflection holds").
#![tactic(auto)]

ghost use Rattle.std.specs.Prelude.{◌≡◌, true, ℕ, ◌<◌, ◌≤◌, Err, get_or, length, replicate};
ghost use Rattle.reflection.specs.Limits.{binding_table, buffer_table, variable_table, type_table};
ghost use Rattle.tables.specs.Lent.{SameTables, TablesZeroed};
ghost use Rattle.read.specs.Parsed.{read_in, TablesParsed};
ghost use Rattle.payload.specs.Lengths.{TablesAsLong};
ghost use Rattle.readable.specs.Readable.{table_contents, readable};
ghost use Rattle.payload.specs.Answer.{room_enough, unedited_held, written_answer, payload_into, PayloadWritten, payload_part};
ghost use Rattle.payload.specs.Answer.{payload_place, payload_place_or};

use reflection::{Refusal, ResourceDef, Texts};
use tables::{Reflection, Tables};

// What is handed back: the chunk, or so many bytes of the output.
#[derive(Clone, Copy, Debug, PartialEq, Eq)]
pub enum Payload {
    Chunk,
    Output(usize),
}

// Whether the four tables and the scratch have the words that the payload needs.
#[tactic(auto, unfolding(crate::specs::Answer::room_enough))]
fn enough(tables: &Tables<'_>, scratch: &[u32]) -> bool
    ensures { result ≡ room_enough (length tables.now.bindings.now) (length tables.now.buffers.now) (length tables.now.variables.now)
        (length tables.now.types.now) (length scratch.now) }
{
    reflection::BINDING_TABLE <= tables.bindings.len()
        && reflection::BUFFER_TABLE <= tables.buffers.len()
        && reflection::VARIABLE_TABLE <= tables.variables.len()
        && reflection::TYPE_TABLE <= tables.types.len()
        && write_spec::SCRATCH_WORDS <= scratch.len()
}

// A refusal: the output is zeroed.
fn refuse(out: &mut [u8], refusal: Refusal) -> Result<Payload, Refusal>
    ensures { PayloadWritten (Err refusal) out.old out.new result }
{
    written_payload(text_output::refuse(out, refusal))
}

// The payload that was written to the output, or that writing refused.
#[tactic(auto, unfolding(crate::specs::Answer::written_answer))]
fn written_payload(written: Result<usize, Refusal>) -> Result<Payload, Refusal>
    ensures { result ≡ written_answer written }
{
    written.map(Payload::Output)
}

// `read::parse_rdef`, and what its caller needs beside: the tables are as long as they were, and the chunk holds bytes.
fn read_again(chunk: &[u8], found: &mut Tables<'_>) -> Result<ResourceDef, Refusal>
    ensures parsed { TablesParsed (read_in chunk.now found.old) found.old found.new result }
    ensures lengths { TablesAsLong found.old found.new }
    ensures bytes { (i : ℕ) → get_or chunk.now i 0 < 256 }
    ensures same { SameTables found.old found.new }
{
    read::parse_rdef(chunk, found)
}

// Whether the chunk reads as the reflection. It is read into the four lent tables.
fn unedited(texts: Texts<'_>, r: Reflection<'_>, found: &mut Tables<'_>) -> bool
    requires types_value { readable texts.chunk.now texts.edits.now r.def r.bindings.now r.buffers.now r.variables.now r.types.now ≡ true }
    requires binding_table_in_bounds { (binding_table ≤ length found.old.bindings.now) × ((buffer_table ≤ length found.old.buffers.now)
        × ((variable_table ≤ length found.old.variables.now) × (type_table ≤ length found.old.types.now))) }
    ensures answer { result ≡ unedited_held texts.entry.chunk.now (table_contents texts.entry.chunk.now texts.entry.edits.now r.entry.def
        r.entry.bindings.now r.entry.buffers.now r.entry.variables.now r.entry.types.now) }
    ensures lengths { TablesAsLong found.old found.new }
    ensures same { SameTables found.old found.new }
{
    match read_again(texts.chunk, found) {
        Err(_) => false,
        Ok(def) => compare::same_reflection(texts, found.reflection(def), r),
    }
}

// The payload; the four tables and the scratch are left as they come.
fn find_payload(
    texts: Texts<'_>,
    r: Reflection<'_>,
    found: &mut Tables<'_>,
    scratch: &mut [u32],
    out: &mut [u8],
) -> Result<Payload, Refusal>
    ensures payload { PayloadWritten (payload_into found.old.bindings.now found.old.buffers.now found.old.variables.now found.old.types.now
        scratch.old out.old texts.entry.chunk.now texts.entry.edits.now r.entry.def
        r.entry.bindings.now r.entry.buffers.now r.entry.variables.now r.entry.types.now) out.old out.new result }
    ensures lengths { TablesAsLong found.old found.new }
    ensures same { SameTables found.old found.new }
    ensures scratch { length scratch.new ≡ length scratch.old }
{
    if !enough(found, scratch) {
        return refuse(out, Refusal::NoRoom);
    }
    if !readable::readable(texts, r) {
        return refuse(out, Refusal::NotReadable);
    }
    if unedited(texts, r, found) {
        return Ok(Payload::Chunk);
    }
    written_payload(write::write_rdef_canonical(texts, r, scratch, out))
}

// The payload of a reflection. The chunk is read again into the four lent tables `found`, which are scratch: 15 where one has
// not document 01's whole room or the scratch is shorter than `write_spec::SCRATCH_WORDS`; 16 where the reflection is not readable; then the chunk where it
// reads as this reflection, however short the output, which is then untouched; else the canonical form, or 17 where it is longer than the output or than
// 65,536 bytes. The four tables and the scratch are zeroed in any case, the output by a refusal; bytes past the written length are as they were.
pub fn write_payload(
    texts: Texts<'_>,
    r: Reflection<'_>,
    found: &mut Tables<'_>,
    scratch: &mut [u32],
    out: &mut [u8],
) -> Result<Payload, Refusal>
    ensures payload { PayloadWritten
        (payload_into found.old.bindings.now found.old.buffers.now found.old.variables.now found.old.types.now
        scratch.old out.old texts.entry.chunk.now texts.entry.edits.now r.entry.def
        r.entry.bindings.now r.entry.buffers.now r.entry.variables.now r.entry.types.now)
        out.old out.new result }
    ensures tables { TablesZeroed found.old found.new }
    ensures same { SameTables found.old found.new }
    ensures scratch { scratch.new ≡ replicate (length scratch.old) 0 }
{
    let payload = find_payload(texts, r, found, scratch, out);
    found.clear();
    words::clear(scratch);
    payload
}

// The payload's bytes, as a part of the chunk or of the output and no copy; the empty part after a refusal, or where the output does not have so many bytes.
#[tactic(auto, unfolding(crate::specs::Answer::payload_part))]
pub fn payload_part<'a, E: Copy>(
    chunk: &'a [u8],
    out: &'a [u8],
    payload: Result<Payload, E>,
) -> &'a [u8]
    ensures { result.now ≡ payload_part chunk.now out.now payload }
{
    match payload {
        Ok(Payload::Chunk) => chunk,
        Ok(Payload::Output(n)) => words::part(out, 0, n),
        Err(_) => &chunk[0..0],
    }
}

// What stands beside `payload_part`: whether the part that it hands back is the payload; else the payload's own refusal, or 16.
// Two calls, as docs/FORMAT.md has them: `payload_part` cannot fail.
#[tactic(auto, unfolding(crate::specs::Answer::payload_place))]
pub fn payload_refusal(out: &[u8], payload: Result<Payload, Refusal>) -> Result<(), Refusal>
    ensures { result ≡ payload_place (length out.now) payload }
{
    payload_refusal_or(out, payload, Refusal::NotReadable)
}

// The same of a payload whose refusal is of any type, with what stands for 16.
#[tactic(auto, unfolding(crate::specs::Answer::payload_place_or, words::specs::Parts::inside))]
pub fn payload_refusal_or<E: Copy>(
    out: &[u8],
    payload: Result<Payload, E>,
    not_readable: E,
) -> Result<(), E>
    ensures { result ≡ payload_place_or not_readable (length out.now) payload }
{
    match payload {
        Ok(Payload::Chunk) => Ok(()),
        Ok(Payload::Output(n)) => {
            if n <= out.len() {
                Ok(())
            } else {
                Err(not_readable)
            }
        }
        Err(refusal) => Err(refusal),
    }
}
