// Which names can be printed.
ghost use Rattle.std.specs.Prelude.{◌≡◌};
ghost use Rattle.text_output.specs.Printable.{printable};

use reflection::{Text, Texts};

// Whether a name can be printed: in place, and UTF-8.
#[tactic(auto, unfolding(crate::specs::Printable::printable))]
pub fn printable(texts: Texts<'_>, name: Text) -> bool
    ensures { result ≡ printable texts.entry.chunk.now texts.entry.edits.now name }
{
    texts.in_place(name) && text::utf8_ok(texts.name_part(name))
}
