// Whether a reflection in lent tables is readable (document 01, "What a reflection holds"): the header and the counts, then the records of each table.
#![tactic(auto)]

ghost use Rattle.std.specs.Prelude.{◌≡◌};
ghost use Rattle.readable.specs.Readable.{readable};

mod bindings;
mod buffers;
mod header;
mod names;
mod subject;
mod types;
mod variables;

use reflection::Texts;
use subject::Subject;
use tables::Reflection;

// Whether the reflection in these tables, over these two buffers, is readable.
#[tactic(auto, using(crate::proofs::Split::readable_split), unfolding(crate::specs::Checks::records_checked))]
pub fn readable(texts: Texts<'_>, r: Reflection<'_>) -> bool
    ensures { result ≡ readable texts.entry.chunk.now texts.entry.edits.now r.entry.def r.entry.bindings.now r.entry.buffers.now
        r.entry.variables.now r.entry.types.now }
{
    let subject = Subject { texts, r };
    subject.header_readable()
        && subject.counts_readable()
        && subject.bindings_readable()
        && subject.buffers_readable()
        && subject.variables_readable()
}
