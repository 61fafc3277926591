// The walk of the buffers, each with its variables and their types.
ghost use Rattle.std.specs.Prelude.{◌≡◌};
ghost use Rattle.reflection.specs.Limits.{buffer_width, variable_width};
ghost use Rattle.read_types.specs.Walked.{HasRoom, Walked};
ghost use Rattle.read_types.specs.Filling.{counted};
ghost use Rattle.read_tables.specs.Buffers.{buffer_record_in_chunk, buffers_progress, buffers_in, up_to_buffers, KeptBindings};

use crate::variables::walk_variables;
use read_types::{Record, Records, TypeFilling, claim};
use reflection::{BUFFER_STRIDE, CBufferDef, Refusal, Text};

// The buffer, whose name is known.
#[tactic(auto, unfolding(crate::specs::Buffers::buffer_record_in_chunk))]
fn buffer_record(buffer: Record<'_>, name: Text) -> CBufferDef
    ensures { result ≡ buffer_record_in_chunk buffer.entry.chunk.bytes.now buffer.entry.at name }
{
    CBufferDef {
        name,
        variable_count: buffer.word(4),
        size: buffer.word(12),
        flags: buffer.word(16),
        cb_type: buffer.word(20),
    }
}

// Walks buffers: they and their variables, each in their table, and the nodes of the variables' types follow those that there are.
#[tactic(auto, using(words::proofs::Parts::inside_fits))]
pub fn walk_buffers(
    filling: &mut TypeFilling<'_>,
    buffer_table: &mut [u32],
    variable_table: &mut [u32],
    mut buffers: Records<'_>,
) -> Result<(), Refusal>
    requires buffers_fit { HasRoom buffer_width filling.old.capacity.buffers filling.old.counts.buffers buffer_table.old }
    requires variables_fit { HasRoom variable_width filling.old.capacity.variables filling.old.counts.variables variable_table.old }
    ensures walked { Walked (buffers_progress buffers.entry.chunk.bytes.now buffers.entry.chunk.sm5 buffers.entry.count buffers.entry.at)
        filling.old.capacity (up_to_buffers filling.old.capacity filling.old.counts) filling.old.counts
        (buffers_in buffer_table.old variable_table.old filling.old.types.now)
        (buffers_in buffer_table.new variable_table.new filling.new.types.now) (counted result filling.new.counts) }
    ensures kept { KeptBindings filling.old filling.new buffer_table.new variable_table.new }
{
    for _ in 0..buffers.count {
        let n = claim(&mut filling.counts.buffers, filling.capacity.buffers)?;
        let record = buffers.next(BUFFER_STRIDE as usize)?;
        let variables = Records {
            chunk: buffers.chunk,
            at: record.word(8) as usize,
            count: record.word(4),
        };
        walk_variables(filling, variable_table, variables)?;
        let name = record.name()?;
        tables::put_buffer(buffer_table, n, buffer_record(record, name));
    }
    Ok(())
}
