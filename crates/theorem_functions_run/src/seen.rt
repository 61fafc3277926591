// What the program looks at, and its lines: a name, and fields with a tab before each.
use reflection::{Refusal, Texts};
use std::io;
use std::io::Write;
use theorem_functions::WrittenAndRead;

// A length or a count as a word; outputs are short.
fn word(n: usize) -> u32 {
    n.min(reflection::CHUNK_LIMIT) as u32
}

pub fn number_line<W: Write>(out: &mut W, name: &str, n: usize) -> io::Result<()> {
    stdout::put_line(out, name.as_bytes(), &[word(n)])
}

pub fn bool_line<W: Write>(out: &mut W, name: &str, yes: bool) -> io::Result<()> {
    let said = if yes { "yes" } else { "no" };
    writeln!(out, "{name}\t{said}")
}

// How many bytes were written.
pub fn length(answer: Result<WrittenAndRead, Refusal>) -> usize {
    answer.map_or(0, |written| written.length)
}

// How many variables were found in the written bytes.
pub fn variables(answer: Result<WrittenAndRead, Refusal>) -> u32 {
    answer
        .and_then(|written| written.parsed)
        .map_or(0, |found| found.variable_count)
}

// The answer: the written length and how many variables were read, or the refusal.
pub fn answer_line<W: Write>(
    out: &mut W,
    name: &str,
    answer: Result<WrittenAndRead, Refusal>,
) -> io::Result<()> {
    match answer {
        Ok(written) => {
            stdout::put_bytes(out, name.as_bytes())?;
            stdout::put_line(out, b"\twrote", &[word(written.length), variables(answer)])
        }
        Err(refusal) => refused_line(out, name, refusal),
    }
}

pub fn written_line<W: Write>(
    out: &mut W,
    name: &str,
    answer: Result<usize, Refusal>,
) -> io::Result<()> {
    match answer {
        Ok(length) => {
            stdout::put_bytes(out, name.as_bytes())?;
            stdout::put_line(out, b"\twrote", &[word(length)])
        }
        Err(refusal) => refused_line(out, name, refusal),
    }
}

fn refused_line<W: Write>(out: &mut W, name: &str, refusal: Refusal) -> io::Result<()> {
    stdout::put_bytes(out, name.as_bytes())?;
    stdout::put_line(out, b"\trefused", &[u32::from(refusal)])
}

// Where the first variable's default was found, its length, and the bytes there in hex.
pub fn place_line<W: Write>(
    out: &mut W,
    name: &str,
    written: &[u8],
    variables: &[u32],
) -> io::Result<()> {
    let default = tables::variable_at(variables, 0).default_value;
    let texts = Texts {
        chunk: written,
        edits: written,
    };
    stdout::put_bytes(out, name.as_bytes())?;
    stdout::put_fields(out, &[default.place, default.length])?;
    stdout::put_byte(out, b'\t')?;
    stdout::put_hex(out, texts.name_part(default))?;
    stdout::put_byte(out, b'\n')
}

// Whether byte p lies in the default of one of the first `count` variables.
fn covered(variables: &[u32], count: u32, p: usize) -> bool {
    (0..count as usize).any(|i| {
        let default = tables::variable_at(variables, i).default_value;
        let place = default.place as usize;
        place <= p && p - place < default.length as usize
    })
}

// How many of the first n bytes differ, of those that lie in a default, or of those that do not.
pub fn differing(
    a: &[u8],
    b: &[u8],
    variables: &[u32],
    count: u32,
    n: usize,
    inside: bool,
) -> usize {
    (0..n)
        .filter(|p| {
            covered(variables, count, *p) == inside
                && words::byte_at(a, *p) != words::byte_at(b, *p)
        })
        .count()
}

// Whether all bytes from `from` on are as they were.
pub fn kept(out: &[u8], from: usize, old: u8) -> bool {
    out.iter().skip(from).all(|b| *b == old)
}

// Whether all words are 0.
pub fn zero(words: &[u32]) -> bool {
    words.iter().all(|word| *word == 0)
}
