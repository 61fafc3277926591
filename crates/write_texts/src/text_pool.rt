// The pools of texts.
ghost use Rattle.std.specs.Prelude.{◌≡◌, ◌≤◌};
ghost use Rattle.text_output.specs.Output.{Appended};
ghost use Rattle.write_texts.specs.PlacedInPool.{farthest_offset, text_written, text_start};
ghost use Rattle.write_texts.specs.PlacedInScratch.{start_of, end_of};

use crate::scratch::{DEFAULTS_START, INNER_START, ROOT_TYPES_START};
use std::ops::Range;
use text_output::Output;

// Names of bindings and buffers, all other names, defaults.
#[derive(Clone, Copy)]
pub enum TextPool {
    OuterNames,
    InnerNames,
    Defaults,
}

impl TextPool {
    // The pool's region of the scratch.
    pub fn region(self) -> Range<usize>
        ensures { (result.start ≡ start_of self) × (result.end ≡ end_of self) }
    {
        match self {
            TextPool::OuterNames => 0..INNER_START,
            TextPool::InnerNames => INNER_START..DEFAULTS_START,
            TextPool::Defaults => DEFAULTS_START..ROOT_TYPES_START,
        }
    }

    // Writes a text of the pool: a name with its NUL, a default after padding. The answer is its offset.
    pub fn put_text(self, out: &mut Output<'_>, bytes: &[u8]) -> u32
        requires { out.old.at ≤ farthest_offset }
        ensures text { Appended out.old out.new (text_written self out.old.at bytes.now) }
        ensures offset { result ≡ text_start self out.old.at }
    {
        if let TextPool::Defaults = self {
            write_bytes::put_padding(out);
            let offset = out.at as u32;
            out.put_bytes(bytes);
            return offset;
        }
        let offset = out.at as u32;
        write_bytes::put_name(out, bytes);
        offset
    }
}
