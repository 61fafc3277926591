// What the programs have in common that print a line for each of some records or texts, or why it has none: `list`, `decl` and `spell`.
#![tactic(auto)]

ghost use Rattle.std.specs.Prelude.{◌≡◌, OnOk};
ghost use Rattle.std.specs.Io.KnownBytes.{Appends};
ghost use Rattle.reflection.specs.Refusals.{refusal_number};
ghost use Rattle.stdout.specs.Output.{refused_line};
ghost use Rattle.stderr.specs.Refused.{first_of};
ghost use Rattle.answer_lines.specs.Line.{line_of, first_after};

use reflection::Refusal;
use std::io;
use std::io::Write;

mod chunk;

pub use chunk::{Lines, run};

// Where a program prints its lines, and the first refusal among them.
#[derive(Drop)]
pub struct Answers<W> {
    pub out: W,
    pub refused: Option<Refusal>,
}

impl<W: Write> Answers<W> {
    // Adds the line of a refusal.
    pub fn put_refused(&mut self, refusal: Refusal) -> io::Result<()>
        ensures line { OnOk result (Appends (W.contents self.old.out) (W.contents self.new.out) (refused_line (refusal_number refusal))) }
        ensures first { self.new.refused ≡ first_of self.old.refused refusal }
    {
        stderr::keep_first(&mut self.refused, refusal);
        stdout::put_refused(&mut self.out, refusal)
    }

    // Adds a line, of which so many bytes were made in `line`, or that of its refusal.
    pub fn put_line(&mut self, line: &[u8], made: Result<usize, Refusal>) -> io::Result<()>
        ensures line { OnOk result (Appends (W.contents self.old.out) (W.contents self.new.out) (line_of line.now made)) }
        ensures first { self.new.refused ≡ first_after self.old.refused made }
    {
        match made {
            Ok(length) => {
                stdout::put_bytes(&mut self.out, words::part(line, 0, length))?;
                stdout::put_byte(&mut self.out, b'\n')
            }
            Err(refusal) => self.put_refused(refusal),
        }
    }
}
