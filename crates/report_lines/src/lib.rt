// The report of a chunk: what it holds, a line for each record (document 01, "The report program"). It is printed as the tables are walked, so a
// report has no limit.
#![tactic(auto)]

use reflection::{Refusal, Texts};
use std::io;
use std::io::Write;
use tables::Reflection;
use whole_tables::WholeTables;

mod chunk_lines;
mod fields;
mod lines;

// A reflection that is reported, the text that holds its names, and where its lines go.
#[derive(Drop)]
struct Reporter<'a, W: Write> {
    out: &'a mut W,
    texts: Texts<'a>,
    r: Reflection<'a>,
}

// Prints what the chunk reads as, or why it was refused. Answers why the chunk was refused, where it was.
pub fn report<W: Write>(
    out: &mut W,
    chunk: &[u8],
    tables: &mut WholeTables,
) -> io::Result<Option<Refusal>> {
    match tables.read_reflection(chunk) {
        Err(refusal) => {
            stdout::put_refused(out, refusal)?;
            Ok(Some(refusal))
        }
        Ok(r) => {
            let texts = Texts { chunk, edits: &[] };
            Reporter { out, texts, r }.all_lines()?;
            Ok(None)
        }
    }
}
