// Names and defaults: in their buffers, and readable by their bytes.
ghost use Rattle.std.specs.Prelude.{◌≡◌};
ghost use Rattle.readable.specs.Checks.{name_checked, default_checked};

use reflection::{Text, Texts};

// Whether a name lies in its buffer and is UTF-8 without NUL.
#[tactic(auto, unfolding(crate::specs::Checks::name_checked, crate::specs::Readable::name_readable))]
pub(crate) fn name_readable(texts: Texts<'_>, name: Text) -> bool
    ensures { result ≡ name_checked texts.entry.chunk.now texts.entry.edits.now name }
{
    let bytes = texts.name_part(name);
    texts.in_place(name) && text::without_nul(bytes) && text::utf8_ok(bytes)
}

// Whether a default lies in its buffer and is empty or of its variable's size.
#[tactic(auto, unfolding(crate::specs::Checks::default_checked))]
pub(crate) fn default_readable(texts: Texts<'_>, size: u32, default: Text) -> bool
    ensures { result ≡ default_checked texts.entry.chunk.now texts.entry.edits.now size default }
{
    texts.in_place(default) && (default.length == 0 || default.length == size)
}
