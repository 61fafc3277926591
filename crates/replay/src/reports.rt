// Prints the reports of the chunks on standard input, with an empty line after each. The gate holds what is printed to reports made from the Rust; the
// comparison with the Rust runs the same program on fresh chunks.
use std::io;
use std::io::{Input, Write};
use whole_tables::WholeTables;

// The longest chunk that the input may have. It is longer than any that is read, so that some which are too long can be among them.
const LONGEST: usize = 2 * reflection::CHUNK_LIMIT;

// The next word of standard input, or 0 where it ends before.
fn next_word(rt: &impl Input) -> io::Result<u32> {
    let mut bytes = [0u8; 4];
    let n = input::standard_full(rt, &mut bytes)?;
    Ok(words::word_at(words::part(&bytes, 0, n), 0))
}

// Reads the next chunk of standard input into `lent`: `None` where there is no room for it or the input ends within it.
fn next_chunk<'a>(rt: &impl Input, lent: &'a mut [u8]) -> io::Result<Option<&'a [u8]>> {
    let length = next_word(rt)? as usize;
    let Some(chunk) = lent.get_mut(..length) else {
        return Ok(None);
    };
    let n = input::standard_full(rt, chunk)?;
    if n < length {
        Ok(None)
    } else {
        Ok(Some(chunk))
    }
}

// Prints the report of each chunk. An input that ends within a chunk, or that has a longer one, is bad.
fn report_each<W: Write>(
    rt: &impl Input,
    out: &mut W,
    lent: &mut [u8; LONGEST],
    tables: &mut WholeTables,
) -> io::Result<()> {
    let count = next_word(rt)?;
    for _ in 0..count {
        let Some(chunk) = next_chunk(rt, lent)? else {
            return stdout::put_bytes(out, b"bad input\n");
        };
        report_lines::report(out, chunk, tables)?;
        stdout::put_byte(out, b'\n')?;
    }
    Ok(())
}

// Prints the reports.
pub fn print_reports<W: Write>(rt: &impl Input, out: &mut W) -> io::Result<()> {
    let mut chunk = [0u8; LONGEST];
    let mut tables = WholeTables::new();
    stdout::put_bytes(out, b"reports\n")?;
    report_each(rt, out, &mut chunk, &mut tables)
}
