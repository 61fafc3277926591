// What was found in a chunk, as a text of it.
ghost use Rattle.std.specs.Prelude.{◌≡◌, ◌≤◌, length};
ghost use Rattle.text.specs.Strings.{cstring_at};
ghost use Rattle.reflection.specs.Limits.{chunk_limit};
ghost use Rattle.read_types.specs.Found.{text_in};

use reflection::{Text, in_chunk};

// The string at an offset, if there is one.
#[tactic(auto, using(crate::proofs::Names::within_more))]
pub fn string_at(bytes: &[u8], at: u32) -> Option<Text>
    requires { length bytes.now ≤ chunk_limit }
    ensures { result ≡ text_in (cstring_at bytes.now at) }
{
    let span = text::cstring_at(bytes, at as usize)?;
    Some(in_chunk(span.place as u32, span.length as u32))
}
