// The node after a type: a type is as many nodes as it and its members have.
ghost use Rattle.std.specs.Prelude.{◌≡◌, ◌≤◌};
ghost use Rattle.tables.specs.Trees.{farthest_node, tree_at, members_at, has_member};

use crate::TypeNode;
use reflection::TYPE_WORDS;

// Whether another member lies at node k, where `left` are left: members end where the table ends.
#[tactic(auto, using(tables::proofs::Trees::some_member, tables::proofs::Trees::no_member_lem))]
pub fn has_member(types: &[u32], left: u32, k: usize) -> bool
    ensures { result ≡ has_member types.now left k }
{
    left != 0 && k < types.len() / TYPE_WORDS
}

// The node after the type at node x, whose members have at most so many levels.
pub fn skip_type(x: TypeNode<'_>, levels: usize) -> usize
    ensures { result ≡ (tree_at x.entry.types.now levels x.entry.node).next }
{
    next_node(x.types, x.node, levels)
}

// The same by the table and the number of the node: a struct of both would be copied at each call of the walk.
#[cycle(next_after_members_next_node)]
#[tactic(auto, using(tables::proofs::Trees::tree_flat, crate::proofs::Equal::next_deep))]
fn next_node(types: &[u32], k: usize, levels: usize) -> usize
    requires { k ≤ farthest_node }
    ensures { result ≡ (tree_at types.now levels k).next }
{
    if levels == 0 {
        return k + 1;
    }
    let count = tables::type_at(types, k).member_count;
    next_after_members(types, count, k + 1, levels - 1)
}

// The node after `count` members, the first of them at node k. A loop, so that the stack holds at most two frames for each level.
#[cycle(next_after_members_next_node)]
#[tactic(auto, using(crate::proofs::Equal::skip_tests))]
fn next_after_members(types: &[u32], count: u32, k: usize, levels: usize) -> usize
    ensures { result ≡ (members_at (tree_at types.now levels) types.now count k).next }
{
    let mut next = k;
    let mut left = count;
    while has_member(types, left, next) {
        next = next_node(types, next, levels);
        left -= 1;
    }
    next
}
