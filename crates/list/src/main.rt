// Reads a chunk from standard input and prints each of its bindings as a listed line (document 01, "Spelling and listing").
#![tactic(auto)]

use answer_lines::{Answers, Lines};
use reflection::{CHUNK_LIMIT, Texts};
use std::io;
use std::io::Write;
use stderr::Failure;
use tables::Reflection;

struct Bindings;

impl Lines for Bindings {
    fn put<W: Write>(
        answers: &mut Answers<W>,
        texts: Texts<'_>,
        r: Reflection<'_>,
    ) -> io::Result<()> {
        let mut line = [0u8; CHUNK_LIMIT];
        for i in 0..r.def.binding_count as usize {
            let b = tables::binding_at(r.bindings, i);
            let made = listing::list_binding(texts, b, &mut line);
            answers.put_line(&line, made)?;
        }
        Ok(())
    }
}

fn main(rt: HostRuntime) -> Result<(), Failure> {
    answer_lines::run::<Bindings>(&rt)
}
