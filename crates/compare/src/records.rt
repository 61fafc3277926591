// Whether two records are equal.
ghost use Rattle.std.specs.Prelude.{◌≡◌};
ghost use Rattle.text.specs.Same.{same_bytes};
ghost use Rattle.tables.specs.Nodes.{type_levels};
ghost use Rattle.tables.specs.Decode.{binding_from_table, variable_from_table};
ghost use Rattle.write_spec.specs.Same.{same_binding, same_variable};
ghost use Rattle.compare_types.specs.Same.{same_in};
ghost use Rattle.tables.specs.Trees.{type_tree};
ghost use Rattle.compare.specs.Fields.{same_fields, header_numbers};

use compare_types::TypeNode;
use reflection::{CBufferDef, CBufferVariable, ResourceBinding, ResourceDef, TYPE_LEVELS, Texts};

// Whether two bindings are equal. No derive says it: names are equal by their bytes, wherever they lie.
#[tactic(auto, unfolding(write_spec::specs::Same::same_binding, tables::specs::Decode::binding_from_table, text::specs::Same::same_bytes))]
pub fn same_binding(texts: Texts<'_>, x: ResourceBinding, y: ResourceBinding) -> bool
    ensures { result ≡ same_binding (same_in texts.entry) (same_in texts.entry)
        (binding_from_table x) (binding_from_table y) }
{
    compare_types::same_name(texts, x.name, y.name)
        && x.input_type == y.input_type
        && x.return_type == y.return_type
        && x.dimension == y.dimension
        && x.num_samples == y.num_samples
        && x.bind_point == y.bind_point
        && x.bind_count == y.bind_count
        && x.flags == y.flags
        && x.space == y.space
        && x.id == y.id
}

// Whether two variables are equal, whose types begin at these nodes. No derive says it, as above.
#[tactic(auto, unfolding(write_spec::specs::Same::same_variable, tables::specs::Decode::variable_from_table, text::specs::Same::same_bytes))]
pub fn same_variable(
    texts: Texts<'_>,
    x: CBufferVariable,
    x_type: TypeNode<'_>,
    y: CBufferVariable,
    y_type: TypeNode<'_>,
) -> bool
    ensures { result ≡ same_variable (same_in texts.entry) (same_in texts.entry)
        (variable_from_table x (type_tree x_type.entry.types.now type_levels x_type.entry.node))
        (variable_from_table y (type_tree y_type.entry.types.now type_levels y_type.entry.node)) }
{
    compare_types::same_name(texts, x.name, y.name)
        && x.offset == y.offset
        && x.size == y.size
        && x.flags == y.flags
        && x.texture_start == y.texture_start
        && x.texture_size == y.texture_size
        && x.sampler_start == y.sampler_start
        && x.sampler_size == y.sampler_size
        && compare_types::same_name(texts, x.default_value, y.default_value)
        && compare_types::same_type_between(texts, x_type, y_type, TYPE_LEVELS)
}

// Whether two buffers are equal but for their variables. No derive says it, as above.
#[tactic(auto, unfolding(crate::specs::Fields::same_fields, text::specs::Same::same_bytes))]
pub fn same_fields(texts: Texts<'_>, x: CBufferDef, y: CBufferDef) -> bool
    ensures { result ≡ same_fields (same_in texts.entry) x y }
{
    compare_types::same_name(texts, x.name, y.name)
        && x.size == y.size
        && x.flags == y.flags
        && x.cb_type == y.cb_type
}

// Whether two headers have the same version, flags and RD11 words; only major 5 has these. No derive says it: the counts and the
// creator are left out.
#[tactic(auto, using(crate::proofs::Fields::header_tests), unfolding(text::specs::Same::same_bytes))]
pub fn same_numbers(x: ResourceDef, y: ResourceDef) -> bool
    ensures { result ≡ same_bytes (header_numbers x) (header_numbers y) }
{
    x.target_version == y.target_version
        && x.compile_flags == y.compile_flags
        && (!reflection::is_sm5(x) || x.rd11 == y.rd11)
}
