// The records of the buffers' table.
ghost use Rattle.std.specs.Prelude.{◌≡◌};
ghost use Rattle.readable.specs.Checks.{buffers_checked};

use crate::names::name_readable;
use crate::subject::Subject;

impl Subject<'_> {
    // Whether the buffers that the header counts are readable, and count as many variables as there are.
    #[tactic(auto, using(crate::proofs::RecordTests::buffers_none, crate::proofs::RecordTests::buffers_next))]
    pub(crate) fn buffers_readable(&self) -> bool
        ensures { result ≡ buffers_checked self.now.texts.chunk.now self.now.texts.edits.now
            self.now.r.buffers.now 0 self.now.r.def.buffer_count self.now.r.def.variable_count }
    {
        let mut rest = self.r.def.variable_count;
        for i in 0..self.r.def.buffer_count as usize {
            let b = tables::buffer_at(self.r.buffers, i);
            if !name_readable(self.texts, b.name) {
                return false;
            }
            let Some(left) = rest.checked_sub(b.variable_count) else {
                return false;
            };
            rest = left;
        }
        rest == 0
    }
}
