// Reads a chunk from standard input and prints its lines; standard error says why it, or the first of its lines, was refused.
use crate::Answers;
use reflection::{
    BINDING_TABLE, BUFFER_TABLE, CHUNK_LIMIT, Refusal, TYPE_TABLE, Texts, VARIABLE_TABLE,
};
use std::io;
use std::io::{BufWriter, Write};
use stderr::Failure;
use tables::{Reflection, Tables};

// The lines that a program prints of a chunk that was read.
pub trait Lines {
    fn put<W: Write>(
        answers: &mut Answers<W>,
        texts: Texts<'_>,
        r: Reflection<'_>,
    ) -> io::Result<()>;
}

// The lines of the chunk, or why it was refused. Nothing is edited: the text of edits is empty.
fn put_chunk<L: Lines, W: Write>(answers: &mut Answers<W>, chunk: &[u8]) -> io::Result<()> {
    // Four tables and no `WholeTables`: those that a program never looks at then take no stack.
    let mut bindings = [0u32; BINDING_TABLE];
    let mut buffers = [0u32; BUFFER_TABLE];
    let mut variables = [0u32; VARIABLE_TABLE];
    let mut types = [0u32; TYPE_TABLE];
    let mut tables = Tables {
        bindings: &mut bindings,
        buffers: &mut buffers,
        variables: &mut variables,
        types: &mut types,
    };
    match read::parse_rdef(chunk, &mut tables) {
        Ok(def) => {
            let r = tables.reflection(def);
            L::put(answers, Texts { chunk, edits: &[] }, r)?
        }
        Err(refusal) => answers.put_refused(refusal)?,
    }
    stdout::flush(&mut answers.out)
}

// Prints them, and keeps the first refusal. What still waits where a write failed is tried once more as the writer ends: so it ends here, before standard
// error is written to.
fn print<L: Lines>(
    rt: &HostRuntime,
    refused: &mut Option<Refusal>,
    chunk: &[u8],
) -> io::Result<()> {
    let mut answers = Answers {
        out: BufWriter::new(rt.alloc(), rt.stdout())?,
        refused: None,
    };
    let printed = put_chunk::<L, _>(&mut answers, chunk);
    *refused = answers.refused;
    printed
}

// The whole program. One byte more than the longest chunk is read, so that a longer one is seen. What was refused is said even where a write failed.
pub fn run<L: Lines>(rt: &HostRuntime) -> Result<(), Failure> {
    let mut bytes = [0u8; CHUNK_LIMIT + 1];
    let n = input::standard_full(rt, &mut bytes).map_err(Failure::Input)?;
    let chunk = &bytes[..n];
    let mut refused = None;
    let printed = print::<L>(rt, &mut refused, chunk);
    stderr::refused(rt, chunk, refused)?;
    printed.map_err(Failure::Output)
}
