// Whether two reflections in lent tables are equal: record by record, in the order of the tables.
ghost use Rattle.std.specs.Prelude.{◌≡◌, ◌+◌, ◌≤◌};
ghost use Rattle.tables.specs.Decode.{records_from};
ghost use Rattle.reflection.specs.Limits.{variable_room, type_room};
ghost use Rattle.write_spec.specs.Same.{same_list, same_binding, same_buffer, same_def};
ghost use Rattle.compare_types.specs.Same.{same_in};
ghost use Rattle.tables.specs.TableReflection.{root_at, first_variable, buffer_in_table, reflection_in_tables, Sized};
ghost use Rattle.compare.specs.Fields.{binding_in_table};
ghost use Rattle.compare.specs.Compared.{VariablesCompared};

use crate::records::{same_binding, same_fields, same_numbers, same_variable};
use compare_types::TypeNode;
use reflection::{TYPE_LEVELS, Texts};
use tables::Reflection;

// Whether the first bindings of two tables are equal.
fn same_bindings(texts: Texts<'_>, bindings: &[u32], others: &[u32], count: usize) -> bool
    ensures { result ≡ same_list (same_binding (same_in texts.entry) (same_in texts.entry))
        (records_from (binding_in_table bindings.now) 0 count) (records_from (binding_in_table others.now) 0 count) }
{
    (0..count).all(|i| {
        let x = tables::binding_at(bindings, i);
        let y = tables::binding_at(others, i);
        same_binding(texts, x, y)
    })
}

// A variable of two reflections, and the nodes at which its type begins in the one and in the other.
#[derive(Clone, Copy, Default)]
struct Place {
    pub variable: usize,
    pub root: usize,
    pub other_root: usize,
}

// The place after `count` variables, where these are equal.
#[tactic(auto, using(crate::proofs::Buffers::variable_walk))]
fn same_variables(
    texts: Texts<'_>,
    x: Reflection<'_>,
    y: Reflection<'_>,
    from: Place,
    count: usize,
) -> Option<Place>
    requires root_value { (from.root ≡ root_at x.types.now from.variable) × (from.other_root ≡ root_at y.types.now from.variable) }
    requires count_bound { (from.variable + count ≤ variable_room)
        × ((root_at x.types.now (from.variable + count) ≤ type_room) × (root_at y.types.now (from.variable + count) ≤ type_room)) }
    ensures { VariablesCompared (same_in texts.entry) x.entry.variables.now x.entry.types.now
        y.entry.variables.now y.entry.types.now from.variable count result }
{
    let mut k = from.root;
    let mut l = from.other_root;
    let end = from.variable + count;
    for i in from.variable..end {
        let x_type = TypeNode {
            types: x.types,
            node: k,
        };
        let y_type = TypeNode {
            types: y.types,
            node: l,
        };
        let variable = tables::variable_at(x.variables, i);
        let other = tables::variable_at(y.variables, i);
        if !same_variable(texts, variable, x_type, other, y_type) {
            return None;
        }
        k = compare_types::skip_type(x_type, TYPE_LEVELS);
        l = compare_types::skip_type(y_type, TYPE_LEVELS);
    }
    Some(Place {
        variable: end,
        root: k,
        other_root: l,
    })
}

// Whether the first buffers of two reflections are equal, with their variables.
#[tactic(auto, using(crate::proofs::Buffers::buffer_walk))]
fn same_buffers(texts: Texts<'_>, x: Reflection<'_>, y: Reflection<'_>, count: usize) -> bool
    requires count_bound { (first_variable x.buffers.now count ≤ variable_room) × (first_variable y.buffers.now count ≤ variable_room) }
    requires count_bound_2 { (root_at x.types.now (first_variable x.buffers.now count) ≤ type_room)
        × (root_at y.types.now (first_variable y.buffers.now count) ≤ type_room) }
    ensures { result ≡ same_list (same_buffer (same_in texts.entry) (same_in texts.entry))
        (records_from (buffer_in_table x.entry.buffers.now x.entry.variables.now x.entry.types.now) 0 count)
        (records_from (buffer_in_table y.entry.buffers.now y.entry.variables.now y.entry.types.now) 0 count) }
{
    let mut next = Place::default();
    for i in 0..count {
        let buffer = tables::buffer_at(x.buffers, i);
        let other = tables::buffer_at(y.buffers, i);
        if !same_fields(texts, buffer, other) || buffer.variable_count != other.variable_count {
            return false;
        }
        let own = buffer.variable_count as usize;
        let Some(after) = same_variables(texts, x, y, next, own) else {
            return false;
        };
        next = after;
    }
    true
}

// Whether two reflections are equal: numbers, and names and defaults by their bytes in the chunk or the text of edits.
// No derive says it: a reflection is a header and four lent tables.
#[tactic(auto, using(crate::proofs::Buffers::reflection_tests))]
pub fn same_reflection(texts: Texts<'_>, x: Reflection<'_>, y: Reflection<'_>) -> bool
    requires sized { Sized x.def x.buffers.now x.types.now }
    requires sized_2 { Sized y.def y.buffers.now y.types.now }
    ensures { result ≡ same_def (same_in texts.entry) (same_in texts.entry)
        (reflection_in_tables x.entry.def x.entry.bindings.now x.entry.buffers.now x.entry.variables.now x.entry.types.now)
        (reflection_in_tables y.entry.def y.entry.bindings.now y.entry.buffers.now y.entry.variables.now y.entry.types.now) }
{
    same_numbers(x.def, y.def)
        && compare_types::same_name(texts, x.def.creator, y.def.creator)
        && x.def.binding_count == y.def.binding_count
        && same_bindings(texts, x.bindings, y.bindings, x.def.binding_count as usize)
        && x.def.buffer_count == y.def.buffer_count
        && same_buffers(texts, x, y, x.def.buffer_count as usize)
}
