// Whether two types, of one table or of two, are equal: their numbers, names and members (document 01, "Canonical form").
ghost use Rattle.std.specs.Prelude.{◌≡◌, true, false};
ghost use Rattle.text.specs.Same.{same_bytes};
ghost use Rattle.tables.specs.Decode.{node_from_table};
ghost use Rattle.write_spec.specs.Same.{numbers_of, same_type};
ghost use Rattle.tables.specs.Trees.{node_at};
ghost use Rattle.compare_types.specs.Same.{same_in, tree_of};

use crate::TypeNode;
use crate::pair::Pair;
use reflection::{Text, Texts, TypeDesc};

// Whether one of the first five numbers of one node is another than that of the other. A quick test: the words are read where they lie, the number of
// columns, in which most types differ, first. Where it says no, the numbers may differ all the same.
#[tactic(auto, using(crate::proofs::Numbers::other_words))]
fn other_numbers(x: TypeNode<'_>, y: TypeNode<'_>) -> bool
    ensures { result ≡ true → same_bytes (numbers_of (node_at x.entry.types.now x.entry.node).numbers)
        (numbers_of (node_at y.entry.types.now y.entry.node).numbers) ≡ false }
{
    let (Some(a), Some(b)) = (x.row(), y.row()) else {
        return false;
    };
    a[3] != b[3] || a[2] != b[2] || a[1] != b[1] || a[4] != b[4] || a[0] != b[0]
}

// Whether two nodes have the same numbers. No derive says it: the names and the member count are left out.
#[tactic(auto, unfolding(write_spec::specs::Same::numbers_of, tables::specs::Decode::node_from_table, text::specs::Same::same_bytes))]
pub(crate) fn same_numbers(x: TypeDesc, y: TypeDesc) -> bool
    ensures { result ≡ same_bytes (numbers_of (node_from_table x).numbers) (numbers_of (node_from_table y).numbers) }
{
    x.class == y.class
        && x.var_type == y.var_type
        && x.rows == y.rows
        && x.columns == y.columns
        && x.elements == y.elements
        && x.extra0 == y.extra0
        && x.extra1 == y.extra1
        && x.extra2 == y.extra2
        && x.extra3 == y.extra3
}

// Whether two names have the same bytes. Names in one place, as of types that were read from one descriptor, need no look at the bytes.
#[inline]
#[tactic(auto, using(crate::proofs::Names::in_one_place), unfolding(crate::specs::Same::same_name))]
pub fn same_name(texts: Texts<'_>, x: Text, y: Text) -> bool
    ensures { result ≡ same_in texts.entry x y }
{
    if x == y {
        return true;
    }
    let a = texts.name_part(x);
    let b = texts.name_part(y);
    text::same_text(a, b)
}

// Whether the types at two nodes are equal, each with at most so many levels of members. The quick test first.
#[tactic(auto, using(crate::proofs::Equal::other_nodes))]
pub fn same_type(texts: Texts<'_>, x: TypeNode<'_>, y: TypeNode<'_>, levels: usize) -> bool
    ensures { result ≡ same_type (same_in texts.entry) (tree_of levels x.entry) (tree_of levels y.entry) }
{
    !other_numbers(x, y) && same_type_between(texts, x, y, levels)
}

// Whether the types at two nodes are equal, each with at most so many levels of members.
pub fn same_type_between(texts: Texts<'_>, x: TypeNode<'_>, y: TypeNode<'_>, levels: usize) -> bool
    ensures { result ≡ same_type (same_in texts.entry) (tree_of levels x.entry) (tree_of levels y.entry) }
{
    let pair = Pair {
        texts,
        types: x.types,
        others: y.types,
    };
    pair.same_type(x.node, y.node, levels).is_some()
}
