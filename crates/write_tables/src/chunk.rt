// The whole chunk: the bindings and their names, the buffers, the creator, and last the header.
ghost use Rattle.std.specs.Prelude.{◌≡◌, ◌≤◌, length};
ghost use Rattle.write_texts.specs.Scratch.{scratch_size};
ghost use Rattle.write_texts.specs.PlacedInPool.{SourcesFit};
ghost use Rattle.tables.specs.TableReflection.{Sized};
ghost use Rattle.write_texts.specs.Writer.{cursor_of, SameLent};
ghost use Rattle.write_tables.specs.BuffersPlaced.{beginning};
ghost use Rattle.write_tables.specs.Chunk.{PoolsBegun, ChunkWritten};

use crate::buffers::place_buffers;
use crate::names::NamedTable;
use crate::records::{binding_size, header_size, put_binding_records, put_header};
use reflection::{BINDING_WORDS, Texts};
use tables::Reflection;
use text_output::Output;
use write_texts::{BINDINGS_START, Source, TextPool, Writer};

// Makes the three pools of texts empty.
fn begin_pools(scratch: &mut [u32])
    requires { scratch_size ≤ length scratch.old }
    ensures { PoolsBegun scratch.old scratch.new }
{
    write_pool::begin(&mut scratch[TextPool::OuterNames.region()]);
    write_pool::begin(&mut scratch[TextPool::InnerNames.region()]);
    write_pool::begin(&mut scratch[TextPool::Defaults.region()]);
}

// Writes the chunk with a writer that has placed nothing; its output's cursor is then behind the chunk.
fn place_chunk<'a>(texts: Texts<'a>, r: Reflection<'a>, w: &mut Writer<'_, '_>)
    requires sources_fit { SourcesFit texts.chunk.now texts.edits.now }
    requires sized { Sized r.def r.buffers.now r.types.now }
    requires scratch_size_in_bounds { scratch_size ≤ length w.old.scratch.now }
    requires no_types { cursor_of w.old ≡ beginning w.old.out.now.at }
    ensures written { ChunkWritten texts.entry.chunk.now texts.entry.edits.now r.entry.def r.entry.bindings.now r.entry.buffers.now
        r.entry.variables.now r.entry.types.now w.old.scratch.now w.new.scratch.now w.old.out.now.bytes.now w.new.out.now.bytes.now w.new.out.now.at }
    ensures same { SameLent w.old w.new }
{
    begin_pools(w.scratch);
    let sm5 = reflection::is_sm5(r.def);
    let wide = reflection::is_wide(r.def);
    let source = Source {
        texts,
        types: r.types,
        sm5,
    };
    let start = 4 * header_size(sm5);
    let count = r.def.binding_count as usize;
    w.out.at = start + 4 * (count * binding_size(wide));
    let names = NamedTable {
        table: r.bindings,
        width: BINDING_WORDS,
        start: BINDINGS_START,
        step: 1,
    };
    names.place(source, w, count);
    let behind = w.out.at;
    w.out.at = start;
    put_binding_records(r.bindings, w, count, wide);
    w.out.at = behind;
    let buffers = place_buffers(source, r, w, r.def.buffer_count as usize);
    let creator = w.place_inner_name(source, r.def.creator);
    write_texts::put_padding(w.out);
    let end = w.out.at;
    w.out.at = 0;
    put_header(r.def, buffers, creator, w.out);
    w.out.at = end;
}

// Writes the canonical form of the reflection that the header and the tables hold from the output's begin on; the output's cursor is then behind it. What lies
// past the output's end is dropped.
pub fn write_chunk<'a>(
    texts: Texts<'a>,
    r: Reflection<'a>,
    scratch: &mut [u32],
    out: &mut Output<'_>,
)
    requires sources_fit { SourcesFit texts.chunk.now texts.edits.now }
    requires sized { Sized r.def r.buffers.now r.types.now }
    requires scratch_size_in_bounds { scratch_size ≤ length scratch.old }
    ensures written { ChunkWritten texts.entry.chunk.now texts.entry.edits.now r.entry.def r.entry.bindings.now r.entry.buffers.now
        r.entry.variables.now r.entry.types.now scratch.old scratch.new out.old.bytes.now out.new.bytes.now out.new.at }
    ensures same { out.new.bytes.ghost_name ≡ out.old.bytes.ghost_name }
{
    let mut w = Writer {
        scratch,
        out,
        node: 0,
        member_types: 0,
        root_types: 0,
    };
    place_chunk(texts, r, &mut w);
}
