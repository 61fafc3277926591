// A file of stored cases, which is read from its start on, and what the replaying of one has in common.
use crate::summary::ANSWERS;
use std::fs::File;
use std::io;
use std::io::Write;
use std::rt::Files;

// A file is shorter than this.
pub const FILE_LIMIT: usize = 4194304;

// The port's answer, and whether all of it is as stored.
#[derive(Clone, Copy)]
pub struct Replayed {
    pub number: u32,
    pub same: bool,
}

// The cases of a file.
pub trait Cases {
    // Replays the next case. What is cut, of a kind that is not known, or longer than what is lent here, is no case: the file is a bad one.
    fn replay(&mut self, stored: &mut Stored<'_>) -> Option<Replayed>;

    // Prints how many cases had each answer.
    fn answer_lines<W: Write>(&self, out: &mut W, answers: &[u32; ANSWERS]) -> io::Result<()>;
}

// What is still to be read of a file.
#[derive(Clone, Copy)]
pub struct Stored<'a> {
    rest: &'a [u8],
}

impl<'a> Stored<'a> {
    pub fn new(file: &'a [u8]) -> Stored<'a> {
        Stored { rest: file }
    }

    pub fn is_empty(&self) -> bool {
        self.rest.is_empty()
    }

    fn bytes(&mut self, n: usize) -> Option<&'a [u8]> {
        let (bytes, rest) = self.rest.split_at_checked(n)?;
        self.rest = rest;
        Some(bytes)
    }

    pub fn words(&mut self, n: usize) -> Option<&'a [[u8; 4]]> {
        let bytes = self.bytes(n.checked_mul(4)?)?;
        Some(bytes.as_chunks().0)
    }

    pub fn number(&mut self) -> Option<u32> {
        let (word, rest) = self.rest.split_first_chunk()?;
        self.rest = rest;
        Some(u32::from_le_bytes(*word))
    }

    // Bytes, behind their number.
    pub fn text(&mut self) -> Option<&'a [u8]> {
        let n = self.number()?;
        self.bytes(n as usize)
    }

    // Words, behind their number.
    pub fn table(&mut self) -> Option<&'a [[u8; 4]]> {
        let n = self.number()?;
        self.words(n as usize)
    }

    pub fn record<const N: usize>(&mut self) -> Option<[u32; N]> {
        let mut record = [0; N];
        copied(&mut record, self.words(N)?)?;
        Some(record)
    }
}

// The stored words, at the start of what is lent, if there is room for them.
pub fn copied<'a>(lent: &'a mut [u32], stored: &[[u8; 4]]) -> Option<&'a [u32]> {
    let words = lent.get_mut(..stored.len())?;
    for (word, bytes) in words.iter_mut().zip(stored) {
        *word = u32::from_le_bytes(*bytes);
    }
    Some(words)
}

// Whether the table holds the stored words, and zeros after them.
pub fn holds(table: &[u32], stored: &[[u8; 4]]) -> bool {
    let Some((words, rest)) = table.split_at_checked(stored.len()) else {
        return false;
    };
    words
        .iter()
        .zip(stored)
        .all(|(word, bytes)| *word == u32::from_le_bytes(*bytes))
        && zero(rest)
}

pub fn zero(words: &[u32]) -> bool {
    words.iter().all(|word| *word == 0)
}

// Whether what the port left is the answer that is stored next: its number, the written length and bytes, 0xdd behind them still, or zeros after a
// refusal.
pub fn compare_text(
    stored: &mut Stored<'_>,
    number: u32,
    length: &[u32; 2],
    out: &[u8],
) -> Option<Replayed> {
    let stored_number = stored.number()?;
    let text = stored.text()?;
    let behind = if number == 0 { 0xdd } else { 0 };
    let left = out
        .strip_prefix(text)
        .is_some_and(|rest| rest.iter().all(|b| *b == behind));
    Some(Replayed {
        number,
        same: number == stored_number && length[0] as usize == text.len() && length[1] == 0 && left,
    })
}

// Reads the file `name`. Where there is none, or one that is too long, a line says so.
pub fn read_cases<'a, W: Write>(
    rt: &impl Files,
    out: &mut W,
    name: &str,
    all: &'a mut [u8; FILE_LIMIT],
) -> io::Result<Option<&'a [u8]>> {
    let Ok(mut file) = File::open(rt, name) else {
        stdout::put_bytes(out, b"no file\n")?;
        return Ok(None);
    };
    let n = input::read_full(&mut file, all)?;
    if n < FILE_LIMIT {
        return Ok(Some(&all[..n]));
    }
    stdout::put_bytes(out, b"bad file\n")?;
    Ok(None)
}
