// The walk of a buffer's variables, each with the nodes of its type.
ghost use Rattle.std.specs.Prelude.{◌≡◌, ◌+◌};
ghost use Rattle.words.specs.Words.{word_at};
ghost use Rattle.reflection.specs.Limits.{variable_width};
ghost use Rattle.read_spec.specs.Read.{variable_stride, default_at};
ghost use Rattle.read_types.specs.Found.{text_in};
ghost use Rattle.read_types.specs.Walked.{HasRoom, Walked};
ghost use Rattle.read_types.specs.Filling.{counted};
ghost use Rattle.read_tables.specs.Variables.{variable_record_in_chunk, variables_progress, variables_in, up_to_variables, OnlyVariables};

use flags::VariableFlags;
use read_types::{Record, Records, TypeFilling, claim, walk_root};
use reflection::{CBufferVariable, Refusal, SM5_VARIABLE_STRIDE, Text, VARIABLE_STRIDE, in_chunk};

// How many bytes a variable takes.
fn variable_stride(sm5: bool) -> usize
    ensures { result ≡ variable_stride sm5 }
{
    if sm5 {
        SM5_VARIABLE_STRIDE as usize
    } else {
        VARIABLE_STRIDE as usize
    }
}

// A variable's default: offset 0 means empty, any other must lie in the chunk.
#[tactic(auto, using(crate::proofs::Default::default_empty, crate::proofs::Default::default_within))]
fn default_of(variable: Record<'_>) -> Option<Text>
    ensures { result ≡ text_in (default_at variable.entry.chunk.bytes.now (word_at variable.entry.chunk.bytes.now (variable.entry.at + 20))
        (word_at variable.entry.chunk.bytes.now (variable.entry.at + 8))) }
{
    let place = variable.word(20);
    let length = variable.word(8);
    if place == 0 {
        return Some(in_chunk(0, 0));
    }
    words::inside(variable.chunk.bytes.len(), place as usize, length as usize).then_some(in_chunk(
        place, length,
    ))
}

// The variable, whose name and default are known.
#[tactic(auto, unfolding(crate::specs::Variables::variable_record_in_chunk))]
fn variable_record(variable: Record<'_>, name: Text, default: Text) -> CBufferVariable
    ensures { result ≡ variable_record_in_chunk variable.entry.chunk.bytes.now variable.entry.chunk.sm5 variable.entry.at name default }
{
    let sm5 = variable.chunk.sm5;
    CBufferVariable {
        name,
        offset: variable.word(4),
        size: variable.word(8),
        flags: VariableFlags(variable.word(12)),
        default_value: default,
        texture_start: variable.word_if(sm5, 24),
        texture_size: variable.word_if(sm5, 28),
        sampler_start: variable.word_if(sm5, 32),
        sampler_size: variable.word_if(sm5, 36),
    }
}

// Walks variables: they, in the table, and the nodes of their types follow those that there are.
#[tactic(auto, using(words::proofs::Parts::inside_fits))]
pub fn walk_variables(
    filling: &mut TypeFilling<'_>,
    table: &mut [u32],
    mut variables: Records<'_>,
) -> Result<(), Refusal>
    requires { HasRoom variable_width filling.old.capacity.variables filling.old.counts.variables table.old }
    ensures walked { Walked
        (variables_progress variables.entry.chunk.bytes.now variables.entry.chunk.sm5 variables.entry.count variables.entry.at)
        filling.old.capacity (up_to_variables filling.old.capacity filling.old.counts) filling.old.counts
        (variables_in table.old filling.old.types.now) (variables_in table.new filling.new.types.now)
        (counted result filling.new.counts) }
    ensures kept { OnlyVariables filling.old filling.new table.new }
{
    let stride = variable_stride(variables.chunk.sm5);
    for _ in 0..variables.count {
        let n = claim(&mut filling.counts.variables, filling.capacity.variables)?;
        let record = variables.next(stride)?;
        let default = default_of(record).ok_or(Refusal::DefaultPastEnd)?;
        let name = record.name()?;
        tables::put_variable(table, n, variable_record(record, name, default));
        walk_root(filling, variables.chunk, record.word(16))?;
    }
    Ok(())
}
