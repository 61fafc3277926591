// The records of the lent tables, written and read.
#![tactic(auto)]

ghost use Rattle.std.specs.Prelude.{◌≡◌, ℕ, ◌<◌, ◌≤◌, get_or};
ghost use Rattle.tables.specs.Records.{put_record, record_word};
ghost use Rattle.tables.specs.Records.{binding_width, buffer_width, variable_width, type_width};
ghost use Rattle.tables.specs.Records.{binding_words_in_table, buffer_words_in_table, variable_words_in_table, type_words_in_table};
ghost use Rattle.tables.specs.Records.{binding_at, buffer_at, variable_at, type_at};

use reflection::{CBufferDef, CBufferVariable, ResourceBinding, TypeDesc};

mod lent;
mod record;

pub use lent::{Reflection, Tables};

// Writes a binding as record i of the bindings' table.
pub fn put_binding(table: &mut [u32], i: usize, b: ResourceBinding)
    ensures { table.new ≡ put_record binding_width table.old i (binding_words_in_table b) }
{
    record::put(table, i, b);
}

// Writes a constant buffer as record i of the buffers' table.
pub fn put_buffer(table: &mut [u32], i: usize, b: CBufferDef)
    ensures { table.new ≡ put_record buffer_width table.old i (buffer_words_in_table b) }
{
    record::put(table, i, b);
}

// Writes a variable as record i of the variables' table.
pub fn put_variable(table: &mut [u32], i: usize, v: CBufferVariable)
    ensures { table.new ≡ put_record variable_width table.old i (variable_words_in_table v) }
{
    record::put(table, i, v);
}

// Writes a type descriptor as node i of the types' table.
pub fn put_type(table: &mut [u32], i: usize, t: TypeDesc)
    ensures { table.new ≡ put_record type_width table.old i (type_words_in_table t) }
{
    record::put(table, i, t);
}

// Record i of the bindings' table; zeros where it does not lie whole in the table.
#[tactic(auto, unfolding(crate::specs::Records::binding_at))]
pub fn binding_at(table: &[u32], i: usize) -> ResourceBinding
    ensures { result ≡ binding_at table.now i }
{
    record::at(table, i)
}

// Record i of the buffers' table; zeros where it does not lie whole in the table.
#[tactic(auto, unfolding(crate::specs::Records::buffer_at))]
pub fn buffer_at(table: &[u32], i: usize) -> CBufferDef
    ensures { result ≡ buffer_at table.now i }
{
    record::at(table, i)
}

// Record i of the variables' table; zeros where it does not lie whole in the table.
#[tactic(auto, unfolding(crate::specs::Records::variable_at))]
pub fn variable_at(table: &[u32], i: usize) -> CBufferVariable
    ensures { result ≡ variable_at table.now i }
{
    record::at(table, i)
}

// Node i of the types' table; zeros where it does not lie whole in the table.
#[tactic(auto, unfolding(crate::specs::Records::type_at))]
pub fn type_at(table: &[u32], i: usize) -> TypeDesc
    ensures { result ≡ type_at table.now i }
{
    record::at(table, i)
}
