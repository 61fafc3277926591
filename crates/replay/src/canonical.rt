// The file `canonical`: reflections, edited ones and ones that are not readable among them, with scratch and output of some length, and the answers.
// The number, the length, every byte of the output, those past the form too, and every word of scratch are compared.
use crate::cases::{Cases, Replayed, Stored, compare_text, copied, zero};
use crate::summary::{ANSWERS, refused_lines};
use reflection::Refusal;
use std::io;
use std::io::Write;

// What is lent to a case: more than document 01's whole room, since stored cases have longer tables, scratch and outputs too.
const BINDINGS: usize = reflection::BINDING_TABLE + 256;

const BUFFERS: usize = reflection::BUFFER_TABLE + 64;

const VARIABLES: usize = reflection::VARIABLE_TABLE + 256;

const TYPES: usize = reflection::TYPE_TABLE + 256;

const SCRATCH: usize = write_spec::SCRATCH_WORDS + 6016;

const OUTPUT: usize = reflection::CHUNK_LIMIT + 5120;

#[derive(Drop)]
pub struct Canonical;

impl Cases for Canonical {
    // A case is the chunk, the edits, the header, the four tables, the lengths of scratch and output, and the answer. Scratch is zero after it.
    fn replay(&mut self, stored: &mut Stored<'_>) -> Option<Replayed> {
        let mut bindings = [0u32; BINDINGS];
        let mut buffers = [0u32; BUFFERS];
        let mut variables = [0u32; VARIABLES];
        let mut types = [0u32; TYPES];
        let mut scratch = [0xdddd_ddddu32; SCRATCH];
        let mut out = [0xddu8; OUTPUT];
        let mut length = [0xdddd_ddddu32; 2];
        let chunk = stored.text()?;
        let edits = stored.text()?;
        let header = stored.record::<{ reflection::HEADER_WORDS }>()?;
        let bindings = copied(&mut bindings, stored.table()?)?;
        let buffers = copied(&mut buffers, stored.table()?)?;
        let variables = copied(&mut variables, stored.table()?)?;
        let types = copied(&mut types, stored.table()?)?;
        let scratch = scratch.get_mut(..stored.number()? as usize)?;
        let out = out.get_mut(..stored.number()? as usize)?;
        let number = nontrefalcu::nontrefalcu_write_canonical(
            chunk,
            edits,
            &header,
            bindings,
            buffers,
            variables,
            types,
            scratch,
            out,
            &mut length,
        );
        let written = compare_text(stored, number, &length, out)?;
        Some(Replayed {
            same: written.same && zero(scratch),
            ..written
        })
    }

    // Prints how many forms were written and how many refused with each number.
    fn answer_lines<W: Write>(&self, out: &mut W, answers: &[u32; ANSWERS]) -> io::Result<()> {
        stdout::put_line(out, b"written", &[answers[0]])?;
        refused_lines(out, answers, Refusal::NoRoom, Refusal::OutputTooSmall)
    }
}
