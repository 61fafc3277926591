// The buffers: their names, the section of each, and their records.
ghost use Rattle.write_texts.specs.Writer.{cursor_of, placed_at, SameLent};
ghost use Rattle.write_tables.specs.BuffersPlaced.{SectionReady, SectionPlaced, SectionsReady, SectionsPlaced, BuffersReady, BuffersPlaced};

use crate::names::NamedTable;
use crate::records::{BUFFER_SIZE, put_buffer_records, put_variable_records, variable_size};
use crate::variables::place_variables;
use reflection::BUFFER_WORDS;
use tables::Reflection;
use write_texts::{BUFFER_OFFSETS, BUFFERS_START, Source, Writer};

// Places the section of a buffer: padding, the records of its variables, the first of which is `variable`, and what they point to.
fn place_section(
    source: Source<'_>,
    r: Reflection<'_>,
    w: &mut Writer<'_, '_>,
    buffer: usize,
    variable: usize,
)
    requires { SectionReady source.texts.chunk.now source.texts.edits.now r.buffers.now source.types.now buffer variable (cursor_of w.old) w.old.scratch.now }
    ensures placed { SectionPlaced source.entry.texts.chunk.now source.entry.texts.edits.now r.entry.buffers.now r.entry.variables.now
        source.entry.types.now source.entry.sm5 buffer (cursor_of w.old) w.old.scratch.now w.new.scratch.now
        w.old.out.now.bytes.now w.new.out.now.bytes.now (cursor_of w.new) }
    ensures same { SameLent w.old w.new }
{
    let fields = tables::buffer_at(r.buffers, buffer);
    let count = fields.variable_count as usize;
    write_texts::put_padding(w.out);
    let start = w.out.at;
    w.out.at = start + 4 * (count * variable_size(source.sm5));
    place_variables(source, r.variables, w, variable, count, fields.cb_type == 0);
    let end = w.out.at;
    w.out.at = start;
    put_variable_records(r.variables, w, variable, count, source.sm5);
    w.out.at = end;
    w.scratch[BUFFERS_START + buffer * BUFFER_OFFSETS + 1] = start as u32;
}

// Places the sections of the first `count` buffers, before which no type is placed.
fn place_sections(source: Source<'_>, r: Reflection<'_>, w: &mut Writer<'_, '_>, count: usize)
    requires { SectionsReady source.texts.chunk.now source.texts.edits.now r.buffers.now source.types.now count (cursor_of w.old) w.old.scratch.now }
    ensures placed { SectionsPlaced source.entry.texts.chunk.now source.entry.texts.edits.now r.entry.buffers.now r.entry.variables.now
        source.entry.types.now source.entry.sm5 count w.old.out.now.at w.old.scratch.now w.new.scratch.now
        w.old.out.now.bytes.now w.new.out.now.bytes.now (cursor_of w.new) }
    ensures same { SameLent w.old w.new }
{
    let mut variable = 0;
    for buffer in 0..count {
        place_section(source, r, w, buffer, variable);
        variable += tables::buffer_at(r.buffers, buffer).variable_count as usize;
    }
}

// Places the first `count` buffers: padding, their records, their names and their sections. The answer is where the records begin, 0 where there are none.
pub fn place_buffers(
    source: Source<'_>,
    r: Reflection<'_>,
    w: &mut Writer<'_, '_>,
    count: usize,
) -> u32
    requires { BuffersReady source.texts.chunk.now source.texts.edits.now r.buffers.now source.types.now count (cursor_of w.old) w.old.scratch.now }
    ensures placed { BuffersPlaced source.entry.texts.chunk.now source.entry.texts.edits.now r.entry.buffers.now r.entry.variables.now
        source.entry.types.now source.entry.sm5 count w.old.out.now.at w.old.scratch.now w.new.scratch.now
        w.old.out.now.bytes.now w.new.out.now.bytes.now (placed_at result w.new) }
    ensures same { SameLent w.old w.new }
{
    if count == 0 {
        return 0;
    }
    write_texts::put_padding(w.out);
    let records = w.out.at;
    w.out.at = records + 4 * (count * BUFFER_SIZE);
    let names = NamedTable {
        table: r.buffers,
        width: BUFFER_WORDS,
        start: BUFFERS_START,
        step: BUFFER_OFFSETS,
    };
    names.place(source, w, count);
    place_sections(source, r, w, count);
    let end = w.out.at;
    w.out.at = records;
    put_buffer_records(r.buffers, w, count);
    w.out.at = end;
    records as u32
}
