// The records of the variables' table, each with the nodes of its type.
ghost use Rattle.std.specs.Prelude.{◌≡◌};
ghost use Rattle.reflection.specs.Rd11.{rd11_from_header};
ghost use Rattle.reflection.specs.Reflection.{is_sm5};
ghost use Rattle.readable.specs.Checks.{variable_checked, variables_checked};

use crate::names::{default_readable, name_readable};
use crate::subject::Subject;
use reflection::{CBufferVariable, TYPE_LEVELS};

impl Subject<'_> {
    // Whether a variable is readable, its type aside: its name, its default and, for major 4, that it has no slots.
    #[tactic(auto, unfolding(crate::specs::Checks::variable_checked, crate::specs::Readable::zero_unless, crate::specs::Readable::every))]
    fn variable_readable(&self, v: CBufferVariable) -> bool
        ensures { result ≡ variable_checked self.now.texts.chunk.now self.now.texts.edits.now (is_sm5 (rd11_from_header self.now.r.def)) v }
    {
        name_readable(self.texts, v.name)
            && default_readable(self.texts, v.size, v.default_value)
            && (reflection::is_sm5(self.r.def)
                || (v.texture_start == 0
                    && v.texture_size == 0
                    && v.sampler_start == 0
                    && v.sampler_size == 0))
    }

    // Whether the variables that the header counts and their types are readable, and use all its nodes.
    #[tactic(auto, using(crate::proofs::WalkTests::variable_cases))]
    pub(crate) fn variables_readable(&self) -> bool
        ensures { result ≡ variables_checked self.now.texts.chunk.now self.now.texts.edits.now (is_sm5 (rd11_from_header self.now.r.def))
            self.now.r.variables.now self.now.r.types.now 0 self.now.r.def.variable_count 0 self.now.r.def.type_count }
    {
        let mut k = 0;
        for i in 0..self.r.def.variable_count as usize {
            let v = tables::variable_at(self.r.variables, i);
            if !self.variable_readable(v) {
                return false;
            }
            let Some(next) = self.check_type(false, TYPE_LEVELS, k) else {
                return false;
            };
            k = next;
        }
        k == self.r.def.type_count as usize
    }
}
