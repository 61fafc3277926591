// The records of variables, buffers and bindings and the header, written with the offsets that stand in the scratch.
ghost use Rattle.std.specs.Prelude.{◌≡◌, ◌+◌, ◌≤◌};
ghost use Rattle.reflection.specs.Limits.{binding_room, buffer_room, variable_room};
ghost use Rattle.text_output.specs.Output.{Appended};
ghost use Rattle.write_spec.specs.Records.{variable_size, binding_size, header_word_count};
ghost use Rattle.write_texts.specs.Bytes.{joined_bytes};
ghost use Rattle.write_texts.specs.PlacedInPool.{farthest_offset};
ghost use Rattle.write_tables.specs.RecordsPut.{RecordsReady, WordsPut};
ghost use Rattle.write_tables.specs.Offsets.{rows_from, variable_row, buffer_row, binding_row, header_row};

use reflection::ResourceDef;
use text_output::Output;
use write_texts::{
    BINDINGS_START, BUFFER_OFFSETS, BUFFERS_START, VARIABLE_OFFSETS, VARIABLES_START, Writer,
};

// How many words a record takes in the chunk, and the header.
pub const BUFFER_SIZE: usize = reflection::BUFFER_STRIDE as usize / 4;

const VARIABLE_SIZE: usize = reflection::VARIABLE_STRIDE as usize / 4;

const SM5_VARIABLE_SIZE: usize = reflection::SM5_VARIABLE_STRIDE as usize / 4;

const BINDING_SIZE: usize = reflection::BINDING_STRIDE as usize / 4;

const WIDE_BINDING_SIZE: usize = reflection::WIDE_BINDING_STRIDE as usize / 4;

const HEADER_SIZE: usize = reflection::HEADER_SIZE as usize / 4;

const RD11_HEADER_SIZE: usize = reflection::RD11_HEADER_SIZE as usize / 4;

pub fn variable_size(sm5: bool) -> usize
    ensures { result ≡ variable_size sm5 }
{
    if sm5 {
        SM5_VARIABLE_SIZE
    } else {
        VARIABLE_SIZE
    }
}

pub fn binding_size(wide: bool) -> usize
    ensures { result ≡ binding_size wide }
{
    if wide {
        WIDE_BINDING_SIZE
    } else {
        BINDING_SIZE
    }
}

pub fn header_size(sm5: bool) -> usize
    ensures { result ≡ header_word_count sm5 }
{
    if sm5 { RD11_HEADER_SIZE } else { HEADER_SIZE }
}

// Writes the record of a variable: the last words only in major 5.
fn put_variable_record(variables: &[u32], w: &mut Writer<'_, '_>, variable: usize, sm5: bool)
    requires { RecordsReady (variable + 1) variable_room 0 w.old }
    ensures { WordsPut (variable_row sm5 variables.now w.old.scratch.now variable) w.old w.new }
{
    let fields = tables::variable_at(variables, variable);
    let first = VARIABLES_START + variable * VARIABLE_OFFSETS;
    let row = [
        w.scratch[first],
        fields.offset,
        fields.size,
        fields.flags.0,
        w.scratch[first + 1],
        w.scratch[first + 2],
        fields.texture_start,
        fields.texture_size,
        fields.sampler_start,
        fields.sampler_size,
    ];
    write_texts::put_word_bytes(w.out, &row[..variable_size(sm5)]);
}

// Writes the records of `count` variables from `variable` on.
pub fn put_variable_records(
    variables: &[u32],
    w: &mut Writer<'_, '_>,
    variable: usize,
    count: usize,
    sm5: bool,
)
    requires { RecordsReady (variable + count) variable_room 100000 w.old }
    ensures { WordsPut (rows_from (variable_row sm5 variables.now w.old.scratch.now) variable count) w.old w.new }
{
    for i in 0..count {
        put_variable_record(variables, w, variable + i, sm5);
    }
}

// Writes the record of a buffer.
fn put_buffer_record(buffers: &[u32], w: &mut Writer<'_, '_>, buffer: usize)
    requires { RecordsReady (buffer + 1) buffer_room 0 w.old }
    ensures { WordsPut (buffer_row buffers.now w.old.scratch.now buffer) w.old w.new }
{
    let fields = tables::buffer_at(buffers, buffer);
    let first = BUFFERS_START + buffer * BUFFER_OFFSETS;
    let row = [
        w.scratch[first],
        fields.variable_count,
        w.scratch[first + 1],
        fields.size,
        fields.flags,
        fields.cb_type,
    ];
    write_texts::put_word_bytes(w.out, &row);
}

// Writes the records of the first `count` buffers.
pub fn put_buffer_records(buffers: &[u32], w: &mut Writer<'_, '_>, count: usize)
    requires { RecordsReady count buffer_room 100000 w.old }
    ensures { WordsPut (rows_from (buffer_row buffers.now w.old.scratch.now) 0 count) w.old w.new }
{
    for i in 0..count {
        put_buffer_record(buffers, w, i);
    }
}

// Writes the record of a binding: the last words only in a wide one.
fn put_binding_record(bindings: &[u32], w: &mut Writer<'_, '_>, binding: usize, wide: bool)
    requires { RecordsReady (binding + 1) binding_room 0 w.old }
    ensures { WordsPut (binding_row wide bindings.now w.old.scratch.now binding) w.old w.new }
{
    let fields = tables::binding_at(bindings, binding);
    let row = [
        w.scratch[BINDINGS_START + binding],
        fields.input_type,
        fields.return_type,
        fields.dimension,
        fields.num_samples,
        fields.bind_point,
        fields.bind_count,
        fields.flags.0,
        fields.space,
        fields.id,
    ];
    write_texts::put_word_bytes(w.out, &row[..binding_size(wide)]);
}

// Writes the records of the first `count` bindings.
pub fn put_binding_records(bindings: &[u32], w: &mut Writer<'_, '_>, count: usize, wide: bool)
    requires { RecordsReady count binding_room 100000 w.old }
    ensures { WordsPut (rows_from (binding_row wide bindings.now w.old.scratch.now) 0 count) w.old w.new }
{
    for i in 0..count {
        put_binding_record(bindings, w, i, wide);
    }
}

// Writes the header, with where the buffers' records and the creator lie: the last words only in major 5.
pub fn put_header(def: ResourceDef, buffers: u32, creator: u32, out: &mut Output<'_>)
    requires { out.old.at ≤ farthest_offset }
    ensures { Appended out.old out.new (joined_bytes (header_row def buffers creator)) }
{
    let size = header_size(reflection::is_sm5(def));
    let row = [
        def.buffer_count,
        buffers,
        def.binding_count,
        4 * size as u32,
        def.target_version,
        def.compile_flags,
        creator,
        def.rd11.identifier,
        reflection::RD11_HEADER_SIZE,
        reflection::BUFFER_STRIDE,
        def.rd11.resource_binding_stride,
        reflection::SM5_VARIABLE_STRIDE,
        reflection::SM5_TYPE_STRIDE,
        reflection::MEMBER_STRIDE,
        def.rd11.interface_slot_count,
    ];
    write_texts::put_word_bytes(out, &row[..size]);
}
