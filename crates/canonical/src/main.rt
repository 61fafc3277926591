// Reads a chunk from standard input and prints its canonical form (document 01, "Canonical form"), or the line of its refusal; standard error says why.
#![tactic(auto)]

use reflection::{CHUNK_LIMIT, Refusal, Texts};
use std::io;
use std::io::BufWriter;
use stderr::Failure;
use whole_tables::WholeTables;

// Makes in `form` the canonical form of what the chunk reads as. Nothing is edited: the text of edits is empty.
fn canonical(chunk: &[u8], form: &mut [u8; CHUNK_LIMIT]) -> Result<usize, Refusal> {
    let mut tables = WholeTables::new();
    let mut scratch = [0u32; write_spec::SCRATCH_WORDS];
    let r = tables.read_reflection(chunk)?;
    let texts = Texts { chunk, edits: &[] };
    write::write_rdef_canonical(texts, r, &mut scratch, form)
}

// Prints the form, or the line of the refusal.
fn print(
    rt: &HostRuntime,
    form: &[u8; CHUNK_LIMIT],
    written: Result<usize, Refusal>,
) -> io::Result<()> {
    let mut out = BufWriter::new(rt.alloc(), rt.stdout())?;
    match written {
        Err(refusal) => stdout::put_refused(&mut out, refusal)?,
        Ok(length) => stdout::put_bytes(&mut out, words::part(form, 0, length))?,
    }
    stdout::flush(&mut out)
}

// One byte more than the longest chunk is read, so that a longer one is seen.
fn main(rt: HostRuntime) -> Result<(), Failure> {
    let mut bytes = [0u8; CHUNK_LIMIT + 1];
    let n = input::standard_full(&rt, &mut bytes).map_err(Failure::Input)?;
    let chunk = &bytes[..n];
    let mut form = [0u8; CHUNK_LIMIT];
    let written = canonical(chunk, &mut form);
    let printed = print(&rt, &form, written).map_err(Failure::Output);
    stderr::refused(&rt, chunk, written.err())?;
    printed
}
