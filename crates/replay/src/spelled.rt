// The file `spelling`: queries for the spelling of types and the listing of bindings, and the answers. The number, the length and every byte of the
// output are compared, the bytes past the text too; of a spelling that is read the five numbers.
use crate::cases::{Cases, Replayed, Stored, compare_text, holds};
use crate::summary::{ANSWERS, refused_lines};
use reflection::Refusal;
use std::io;
use std::io::Write;

// How many bytes of output are lent: more than document 01's whole room.
const LENT: usize = reflection::CHUNK_LIMIT + 1024;

#[derive(Clone, Copy)]
enum Query {
    TypeName,
    Declaration,
    ParseType,
    ListBinding,
}

impl Query {
    // The kind that has this number in the file.
    fn numbered(number: u32) -> Option<Query> {
        match number {
            1 => Some(Query::TypeName),
            2 => Some(Query::Declaration),
            3 => Some(Query::ParseType),
            4 => Some(Query::ListBinding),
            _ => None,
        }
    }
}

// How many queries of each kind there were.
#[derive(Default, Drop)]
pub struct Spelling {
    type_names: u32,
    declarations: u32,
    parsed_types: u32,
    listed_bindings: u32,
}

impl Cases for Spelling {
    fn replay(&mut self, stored: &mut Stored<'_>) -> Option<Replayed> {
        let query = Query::numbered(stored.number()?)?;
        let replayed = match query {
            Query::TypeName => replay_type_name(stored)?,
            Query::Declaration => replay_declaration(stored)?,
            Query::ParseType => replay_parse_type(stored)?,
            Query::ListBinding => replay_list_binding(stored)?,
        };
        let count = match query {
            Query::TypeName => &mut self.type_names,
            Query::Declaration => &mut self.declarations,
            Query::ParseType => &mut self.parsed_types,
            Query::ListBinding => &mut self.listed_bindings,
        };
        *count = count.saturating_add(1);
        Some(replayed)
    }

    // Prints how many queries of each kind there were, how many were answered, and how many refused with each number.
    fn answer_lines<W: Write>(&self, out: &mut W, answers: &[u32; ANSWERS]) -> io::Result<()> {
        stdout::put_line(out, b"type name", &[self.type_names])?;
        stdout::put_line(out, b"declaration", &[self.declarations])?;
        stdout::put_line(out, b"parse type", &[self.parsed_types])?;
        stdout::put_line(out, b"list binding", &[self.listed_bindings])?;
        stdout::put_line(out, b"answered", &[answers[0]])?;
        refused_lines(out, answers, Refusal::NotReadable, Refusal::NoSpelling)
    }
}

// Replays the query of a text, which `ask` asks the port for. What is stored of it next is the output's length, and the answer.
fn replay_text<F>(stored: &mut Stored<'_>, ask: F) -> Option<Replayed>
where
    F: FnOnce(&mut [u8], &mut [u32; 2]) -> u32,
    requires { F.IsAlwaysCallable ask }
{
    let mut lent = [0xddu8; LENT];
    let mut length = [0xdddd_ddddu32; 2];
    let out = lent.get_mut(..stored.number()? as usize)?;
    let number = ask(out, &mut length);
    compare_text(stored, number, &length, out)
}

fn replay_type_name(stored: &mut Stored<'_>) -> Option<Replayed> {
    let chunk = stored.text()?;
    let edits = stored.text()?;
    let node = stored.record::<{ reflection::TYPE_WORDS }>()?;
    replay_text(stored, |out, length| {
        nontrefalcu::nontrefalcu_type_name(chunk, edits, &node, out, length)
    })
}

fn replay_declaration(stored: &mut Stored<'_>) -> Option<Replayed> {
    let chunk = stored.text()?;
    let edits = stored.text()?;
    let node = stored.record::<{ reflection::TYPE_WORDS }>()?;
    let variable = stored.record::<{ reflection::VARIABLE_WORDS }>()?;
    replay_text(stored, |out, length| {
        nontrefalcu::nontrefalcu_declaration(chunk, edits, &node, &variable, out, length)
    })
}

fn replay_list_binding(stored: &mut Stored<'_>) -> Option<Replayed> {
    let chunk = stored.text()?;
    let edits = stored.text()?;
    let binding = stored.record::<{ reflection::BINDING_WORDS }>()?;
    replay_text(stored, |out, length| {
        nontrefalcu::nontrefalcu_list_binding(chunk, edits, &binding, out, length)
    })
}

fn replay_parse_type(stored: &mut Stored<'_>) -> Option<Replayed> {
    let mut numbers = [0xdddd_ddddu32; 6];
    let number = nontrefalcu::nontrefalcu_parse_type(stored.text()?, &mut numbers);
    let stored_number = stored.number()?;
    let stored_numbers = stored.words(5)?;
    Some(Replayed {
        number,
        same: number == stored_number && holds(&numbers, stored_numbers),
    })
}
