// Reads a chunk from standard input and prints the declaration of each variable, a line each, in walk order (document 01, "Spelling and listing").
#![tactic(auto)]

use answer_lines::{Answers, Lines};
use reflection::{CHUNK_LIMIT, Texts};
use std::io;
use std::io::Write;
use std::ops::Range;
use stderr::Failure;
use tables::Reflection;

// Passes the nodes of one type: after each, its members and the nodes that were still to come behind it.
fn pass_type(types: &[u32], nodes: &mut Range<usize>) {
    let mut to_come: usize = 0;
    for i in nodes {
        let members = tables::type_at(types, i).member_count as usize;
        to_come = to_come.saturating_add(members);
        if to_come == 0 {
            break;
        }
        to_come -= 1;
    }
}

struct Declarations;

impl Lines for Declarations {
    // The nodes of a variable's type follow those of the variables before it.
    fn put<W: Write>(
        answers: &mut Answers<W>,
        texts: Texts<'_>,
        r: Reflection<'_>,
    ) -> io::Result<()> {
        let mut line = [0u8; CHUNK_LIMIT];
        let mut nodes = 0..r.def.type_count as usize;
        for i in 0..r.def.variable_count as usize {
            let name = tables::variable_at(r.variables, i).name;
            let t = tables::type_at(r.types, nodes.start);
            let made = spelling::declaration(texts, t, name, &mut line);
            answers.put_line(&line, made)?;
            pass_type(r.types, &mut nodes);
        }
        Ok(())
    }
}

fn main(rt: HostRuntime) -> Result<(), Failure> {
    answer_lines::run::<Declarations>(&rt)
}
