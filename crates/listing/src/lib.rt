// Listing a binding (document 01, "Spelling and listing"; `Display for ResourceBinding` in the Rust).
#![tactic(auto)]

ghost use Rattle.std.specs.Prelude.{◌≡◌, ◌∷◌, ◌++◌, ◌+◌, ◌≤◌, length};
ghost use Rattle.text_output.specs.Written.{Answers};
ghost use Rattle.text_output.specs.Cursor.{farthest};
ghost use Rattle.text_output.specs.Output.{Appended};
ghost use Rattle.listing.specs.Listing.{pad_to, columns, listed, component_count};

use flags::BindingFlags;
use reflection::{Refusal, ResourceBinding, Texts};
use text_output::Output;

mod code_names;
mod column;
mod flag_names;

// Writes the columns after the name, each after a space.
fn put_columns(out: &mut Output<'_>, b: ResourceBinding)
    requires { out.old.at + 256 ≤ farthest }
    ensures { Appended out.old out.new (32 ∷ columns b) }
{
    code_names::put_input_type(out, b.input_type);
    code_names::put_dimension(out, b.dimension);
    column::put_number(out, b.bind_point, 4);
    column::put_number(out, b.bind_count, 5);
    flag_names::put_flags(out, b.flags);
}

// Writes the line of a binding that has this name.
fn put_line(out: &mut Output<'_>, name: &[u8], b: ResourceBinding)
    requires { out.old.at + length name.now + 512 ≤ farthest }
    ensures { Appended out.old out.new (pad_to 20 name.now ++ (32 ∷ columns b)) }
{
    column::put_padded(out, name, 20);
    put_columns(out, b);
}

// Writes the line of a binding, or refuses where its name is out of place or not UTF-8; any numbers are listed.
pub fn list_binding(texts: Texts<'_>, b: ResourceBinding, out: &mut [u8]) -> Result<usize, Refusal>
    ensures { Answers (listed texts.entry.chunk.now texts.entry.edits.now b) out.old out.new result }
{
    let text = b.name;
    if !text_output::printable(texts, text) {
        return text_output::refuse(out, Refusal::NotReadable);
    }
    let mut line = Output { bytes: out, at: 0 };
    put_line(&mut line, texts.name_part(text), b);
    line.finish()
}

// How many components a texture returns: 1 plus the number in flag bits 2 and 3.
pub fn component_count(flags: BindingFlags) -> u32
    ensures { result ≡ component_count flags.0 }
{
    flags.0 / 4 % 4 + 1
}
