// Reads a chunk from standard input and prints what it holds, a line for each record (document 01, "The report program").
#![tactic(auto)]

use reflection::{CHUNK_LIMIT, Refusal};
use std::io;
use std::io::BufWriter;
use stderr::Failure;
use whole_tables::WholeTables;

// Prints the report. Answers why the chunk was refused, where it was.
fn print(rt: &HostRuntime, chunk: &[u8]) -> io::Result<Option<Refusal>> {
    let mut tables = WholeTables::new();
    let mut out = BufWriter::new(rt.alloc(), rt.stdout())?;
    let refused = report_lines::report(&mut out, chunk, &mut tables)?;
    stdout::flush(&mut out)?;
    Ok(refused)
}

// One byte more than the longest chunk is read, so that a longer one is seen.
fn main(rt: HostRuntime) -> Result<(), Failure> {
    let mut bytes = [0u8; CHUNK_LIMIT + 1];
    let n = input::standard_full(&rt, &mut bytes).map_err(Failure::Input)?;
    let chunk = &bytes[..n];
    let refused = print(&rt, chunk).map_err(Failure::Output)?;
    stderr::refused(&rt, chunk, refused)
}
