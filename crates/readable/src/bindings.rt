// The records of the bindings' table.
ghost use Rattle.std.specs.Prelude.{◌≡◌};
ghost use Rattle.reflection.specs.Rd11.{rd11_from_header};
ghost use Rattle.reflection.specs.Reflection.{is_wide};
ghost use Rattle.readable.specs.Checks.{binding_checked, bindings_checked};

use crate::names::name_readable;
use crate::subject::Subject;
use codes::{ResourceDimension, ResourceInputType};
use reflection::ResourceBinding;

impl Subject<'_> {
    // Whether a binding is readable: its name, its codes and, where it has no space and id, that they are 0.
    #[tactic(auto, using(crate::proofs::RecordTests::binding_tested, codes::proofs::Known::input_type_known, codes::proofs::Known::dimension_known))]
    fn binding_readable(&self, b: ResourceBinding) -> bool
        ensures { result ≡ binding_checked self.now.texts.chunk.now self.now.texts.edits.now (is_wide (rd11_from_header self.now.r.def)) b }
    {
        name_readable(self.texts, b.name)
            && ResourceInputType::try_from(b.input_type).is_ok()
            && ResourceDimension::try_from(b.dimension).is_ok()
            && b.flags.allowed()
            && (reflection::is_wide(self.r.def) || (b.space == 0 && b.id == 0))
    }

    // Whether the bindings that the header counts are readable.
    pub(crate) fn bindings_readable(&self) -> bool
        ensures { result ≡ bindings_checked self.now.texts.chunk.now self.now.texts.edits.now (is_wide (rd11_from_header self.now.r.def))
            self.now.r.bindings.now 0 self.now.r.def.binding_count }
    {
        (0..self.r.def.binding_count as usize).all(|i| self.binding_readable(tables::binding_at(
            self.r.bindings,
            i,
        )))
    }
}
