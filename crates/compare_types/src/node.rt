// A type, by its node in a table.
ghost use Rattle.std.specs.Prelude.{◌≤◌};
ghost use Rattle.tables.specs.Trees.{farthest_node};

use reflection::TYPE_WORDS;

// A table of types and the node at which a type begins, not so far that the number of the node after it would wrap.
#[derive(Clone, Copy)]
pub struct TypeNode<'a> {
    pub types: &'a [u32],
    pub node: usize,
    pub ghost near: { node ≤ farthest_node },
}

impl<'a> TypeNode<'a> {
    ghost use Rattle.std.specs.Prelude.{◌≡◌, ℕ, IfSome, get_or};
    ghost use Rattle.tables.specs.Records.{type_width, record_word, within};

    // The node's words, where they lie whole in the table.
    #[tactic(auto, using(tables::proofs::Records::row_inside))]
    pub(crate) fn row(self) -> Option<&'a [u32; TYPE_WORDS]>
        ensures { IfSome result (λ row. (k : ℕ) → get_or row.now k 0
            ≡ within type_width (record_word type_width self.entry.types.now self.entry.node) k) }
    {
        let (rows, _) = self.types.as_chunks::<TYPE_WORDS>();
        rows.get(self.node)
    }
}
