// The walk of the bindings.
ghost use Rattle.std.specs.Prelude.{◌≡◌};
ghost use Rattle.tables.specs.Tables.{binding_record};
ghost use Rattle.read_spec.specs.Read.{binding_stride, binding_from_chunk};
ghost use Rattle.read_types.specs.Walked.{Walked};
ghost use Rattle.read_types.specs.Filling.{counted};
ghost use Rattle.read_tables.specs.Bindings.{code_check, bindings_progress, bindings_in, up_to_bindings, OnlyBindings};

use crate::filling::BindingFilling;
use codes::{ResourceDimension, ResourceInputType};
use flags::BindingFlags;
use read_types::{Record, Records, claim};
use reflection::{BINDING_STRIDE, Refusal, ResourceBinding, Text, WIDE_BINDING_STRIDE};

// How many bytes a binding takes.
fn binding_stride(wide: bool) -> usize
    ensures { result ≡ binding_stride wide }
{
    if wide {
        WIDE_BINDING_STRIDE as usize
    } else {
        BINDING_STRIDE as usize
    }
}

// Whether a binding's codes are in Microsoft's tables.
fn check_codes(binding: Record<'_>) -> Result<(), Refusal>
    ensures { result ≡ code_check binding.entry.chunk.bytes.now binding.entry.at }
{
    ResourceInputType::try_from(binding.word(4)).map_err(|_| Refusal::BadInputType)?;
    ResourceDimension::try_from(binding.word(12)).map_err(|_| Refusal::BadDimension)?;
    if BindingFlags(binding.word(28)).allowed() {
        Ok(())
    } else {
        Err(Refusal::BadBindingFlags)
    }
}

// The binding, whose name is known.
#[tactic(auto, unfolding(tables::specs::Tables::binding_record, read_spec::specs::Read::binding_from_chunk))]
fn binding_record(binding: Record<'_>, name: Text) -> ResourceBinding
    ensures { result ≡ binding_record (binding_from_chunk binding.entry.chunk.bytes.now binding.entry.chunk.wide binding.entry.at name) }
{
    let wide = binding.chunk.wide;
    ResourceBinding {
        name,
        input_type: binding.word(4),
        return_type: binding.word(8),
        dimension: binding.word(12),
        num_samples: binding.word(16),
        bind_point: binding.word(20),
        bind_count: binding.word(24),
        flags: BindingFlags(binding.word(28)),
        space: binding.word_if(wide, 32),
        id: binding.word_if(wide, 36),
    }
}

// Walks bindings: they follow those that there are.
#[tactic(auto, using(words::proofs::Parts::inside_fits))]
pub fn walk_bindings(
    filling: &mut BindingFilling<'_>,
    mut bindings: Records<'_>,
) -> Result<(), Refusal>
    ensures walked { Walked
        (bindings_progress bindings.entry.chunk.bytes.now bindings.entry.chunk.wide bindings.entry.count bindings.entry.at)
        filling.old.capacity (up_to_bindings filling.old.capacity filling.old.counts) filling.old.counts
        (bindings_in filling.old.bindings.now) (bindings_in filling.new.bindings.now) (counted result filling.new.counts) }
    ensures kept { OnlyBindings filling.old filling.new }
{
    let stride = binding_stride(bindings.chunk.wide);
    for _ in 0..bindings.count {
        let n = claim(&mut filling.counts.bindings, filling.capacity.bindings)?;
        let record = bindings.next(stride)?;
        check_codes(record)?;
        let name = record.name()?;
        tables::put_binding(filling.bindings, n, binding_record(record, name));
    }
    Ok(())
}
