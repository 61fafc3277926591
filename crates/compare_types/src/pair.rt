// Whether two types of two tables are equal, node by node.
ghost use Rattle.std.specs.Prelude.{◌≡◌, ◌≤◌, is_some, IfSome};
ghost use Rattle.write_spec.specs.Same.{same_type, same_members};
ghost use Rattle.tables.specs.Trees.{farthest_node, tree_at, members_at, type_tree};
ghost use Rattle.compare_types.specs.Same.{same_in, NextNodes};

use crate::same::{same_name, same_numbers};
use crate::skip::has_member;
use reflection::Texts;

// Two tables of types, and the texts that hold their names. The walk is lent them: by value they would be copied at each call.
#[derive(Drop)]
pub(crate) struct Pair<'a> {
    pub(crate) texts: Texts<'a>,
    pub(crate) types: &'a [u32],
    pub(crate) others: &'a [u32],
}

impl Pair<'_> {
    // The nodes after the type at node a of the one table and after that at node b of the other, where the two are equal, each with at most so many levels of
    // members. No derive says it: the types are nodes of lent tables, and names are equal by their bytes.
    #[cycle(same_members_same_type)]
    #[tactic(auto, using(crate::proofs::Equal::type_tests, crate::proofs::Equal::next_deep, tables::proofs::Trees::tree_flat))]
    pub(crate) fn same_type(&self, a: usize, b: usize, levels: usize) -> Option<(usize, usize)>
        requires { (a ≤ farthest_node) × (b ≤ farthest_node) }
        ensures equal { is_some result
            ≡ same_type (same_in self.now.texts) (type_tree self.now.types.now levels a) (type_tree self.now.others.now levels b) }
        ensures next { IfSome result (NextNodes (tree_at self.now.types.now levels a).next (tree_at self.now.others.now levels b).next) }
    {
        let x = tables::type_at(self.types, a);
        let y = tables::type_at(self.others, b);
        if !same_numbers(x, y) || !same_name(self.texts, x.name, y.name) {
            return None;
        }
        if levels == 0 {
            return Some((a + 1, b + 1));
        }
        self.same_members(x.member_count, a + 1, y.member_count, b + 1, levels - 1)
    }

    // The nodes after m members from node a of the one table on and after n members from node b of the other on, where they are equal. A loop, so that the
    // stack holds at most two frames for each level.
    #[cycle(same_members_same_type)]
    #[tactic(auto, using(crate::proofs::Equal::member_tests, crate::proofs::Equal::skip_tests))]
    fn same_members(
        &self,
        m: u32,
        a: usize,
        n: u32,
        b: usize,
        levels: usize,
    ) -> Option<(usize, usize)>
        ensures equal { is_some result ≡ same_members (same_in self.now.texts)
            (members_at (tree_at self.now.types.now levels) self.now.types.now m a).it
            (members_at (tree_at self.now.others.now levels) self.now.others.now n b).it }
        ensures next { IfSome result (NextNodes (members_at (tree_at self.now.types.now levels) self.now.types.now m a).next
            (members_at (tree_at self.now.others.now levels) self.now.others.now n b).next) }
    {
        let mut left = m;
        let mut other_left = n;
        let mut i = a;
        let mut j = b;
        while has_member(self.types, left, i) {
            if !has_member(self.others, other_left, j) {
                return None;
            }
            let x = tables::type_at(self.types, i);
            let y = tables::type_at(self.others, j);
            if x.member_offset != y.member_offset
                || !same_name(self.texts, x.member_name, y.member_name)
            {
                return None;
            }
            (i, j) = self.same_type(i, j, levels)?;
            left -= 1;
            other_left -= 1;
        }
        if has_member(self.others, other_left, j) {
            return None;
        }
        Some((i, j))
    }
}
