// The nodes of a type: a type checks its node and its members, and each member its type, one level deeper.
ghost use Rattle.std.specs.Prelude.{◌≡◌, true, ◌-◌, ◌≤◌};
ghost use Rattle.reflection.specs.Rd11.{rd11_from_header};
ghost use Rattle.reflection.specs.Reflection.{is_sm5};
ghost use Rattle.tables.specs.Decode.{node_from_table};
ghost use Rattle.readable.specs.Checks.{node_checked, members_left, type_left, nodes_from, NodesWalked};

use crate::names::name_readable;
use crate::subject::Subject;
use reflection::TypeDesc;

impl Subject<'_> {
    // Whether a node is readable: its numbers, its names and, for major 4, that its name is empty and it has no extra words.
    #[tactic(auto, using(crate::proofs::RecordTests::node_tested))]
    fn node_readable(&self, inner: bool, t: TypeDesc) -> bool
        ensures { result ≡ node_checked self.now.texts.chunk.now self.now.texts.edits.now (is_sm5 (rd11_from_header self.now.r.def)) inner
            (node_from_table t) }
    {
        t.fits_u16()
            && (reflection::is_sm5(self.r.def)
                || (t.extra0 == 0
                    && t.extra1 == 0
                    && t.extra2 == 0
                    && t.extra3 == 0
                    && t.name.length == 0))
            && name_readable(self.texts, t.name)
            && (!inner || name_readable(self.texts, t.member_name))
    }

    // Checks the type whose node is node k, of at most so many levels; `inner` where it is a member's.
    #[cycle(check_members_check_type)]
    #[tactic(auto, using(crate::proofs::WalkTests::type_cases))]
    pub(crate) fn check_type(&self, inner: bool, levels: usize, k: usize) -> Option<usize>
        requires { k ≤ self.now.r.def.type_count }
        ensures { NodesWalked
            (type_left (node_checked self.now.texts.chunk.now self.now.texts.edits.now (is_sm5 (rd11_from_header self.now.r.def))) inner levels
            (nodes_from self.now.r.types.now k (self.now.r.def.type_count - k)))
            self.now.r.types.now self.now.r.def.type_count result }
    {
        if levels == 0 || self.r.def.type_count as usize <= k {
            return None;
        }
        let t = tables::type_at(self.r.types, k);
        if !self.node_readable(inner, t) {
            return None;
        }
        self.check_members(levels - 1, t.member_count, k + 1)
    }

    // Checks the types of n members, the first one's node being node k. A loop, so that the stack holds at most two frames for each level.
    #[cycle(check_members_check_type)]
    #[tactic(auto, using(crate::proofs::WalkTests::member_cases))]
    fn check_members(&self, levels: usize, n: u32, k: usize) -> Option<usize>
        requires { k ≤ self.now.r.def.type_count }
        ensures { NodesWalked
            (members_left (type_left (node_checked self.now.texts.chunk.now self.now.texts.edits.now (is_sm5 (rd11_from_header self.now.r.def)))
            true levels) n (nodes_from self.now.r.types.now k (self.now.r.def.type_count - k)))
            self.now.r.types.now self.now.r.def.type_count result }
    {
        let mut next = k;
        for _ in 0..n {
            next = self.check_type(true, levels, next)?;
        }
        Some(next)
    }
}
