// The file `reading`: chunks and what each reads as. The number, every word of the header and every word of the four tables are compared, the zeros
// after the records too.
ghost use Rattle.std.specs.Prelude.{◌<◌};

use crate::cases::{Cases, Replayed, Stored, holds};
use crate::summary::{ANSWERS, refused_lines};
use reflection::Refusal;
use std::io;
use std::io::Write;

#[derive(Drop)]
pub struct Reading;

impl Cases for Reading {
    // The tables have document 01's whole room.
    fn replay(&mut self, stored: &mut Stored<'_>) -> Option<Replayed> {
        let mut header = [0xdddd_ddddu32; reflection::HEADER_WORDS];
        let mut bindings = [0xdddd_ddddu32; reflection::BINDING_TABLE];
        let mut buffers = [0xdddd_ddddu32; reflection::BUFFER_TABLE];
        let mut variables = [0xdddd_ddddu32; reflection::VARIABLE_TABLE];
        let mut types = [0xdddd_ddddu32; reflection::TYPE_TABLE];
        let number = nontrefalcu::nontrefalcu_parse_rdef(
            stored.text()?,
            &mut header,
            &mut bindings,
            &mut buffers,
            &mut variables,
            &mut types,
        );
        let answer = Answer::next(stored)?;
        Some(Replayed {
            number,
            same: number == answer.number
                && holds(&header, answer.header)
                && holds(&bindings, answer.bindings)
                && holds(&buffers, answer.buffers)
                && holds(&variables, answer.variables)
                && holds(&types, answer.types),
        })
    }

    // Prints how many chunks were read and how many refused with each number.
    fn answer_lines<W: Write>(&self, out: &mut W, answers: &[u32; ANSWERS]) -> io::Result<()> {
        stdout::put_line(out, b"read", &[answers[0]])?;
        refused_lines(out, answers, Refusal::ChunkTooShort, Refusal::NoRoom)
    }
}

// A stored answer: its number, and the words of the header and of each table. A refusal has none.
#[derive(Drop)]
struct Answer<'a> {
    number: u32,
    header: &'a [[u8; 4]],
    bindings: &'a [[u8; 4]],
    buffers: &'a [[u8; 4]],
    variables: &'a [[u8; 4]],
    types: &'a [[u8; 4]],
}

impl<'a> Answer<'a> {
    fn next(stored: &mut Stored<'a>) -> Option<Answer<'a>> {
        let number = stored.number()?;
        let header = stored.words(if number == 0 {
            reflection::HEADER_WORDS
        } else {
            0
        })?;
        Some(Answer {
            number,
            header,
            bindings: stored.words(count_at(header, 8) * reflection::BINDING_WORDS)?,
            buffers: stored.words(count_at(header, 9) * reflection::BUFFER_WORDS)?,
            variables: stored.words(count_at(header, 10) * reflection::VARIABLE_WORDS)?,
            types: stored.words(count_at(header, 11) * reflection::TYPE_WORDS)?,
        })
    }
}

// How many records of a table there are, which stands at this place of the header.
fn count_at(header: &[[u8; 4]], place: usize) -> usize
    ensures { result < 4294967296 }
{
    header
        .get(place)
        .map_or(0, |word| u32::from_le_bytes(*word) as usize)
}
