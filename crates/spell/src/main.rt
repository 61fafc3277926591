// Reads texts from standard input, a line each, and prints what each spells: class, base, rows, columns and elements, parted by tabs (document 01,
// "Spelling and listing"). A line feed ends a line, which the last line may lack.
#![tactic(auto)]

ghost use Rattle.std.specs.Prelude.{OnOk};
ghost use Rattle.std.specs.Io.KnownBytes.{Appends};
ghost use Rattle.spell.specs.Numbers.{numbers_line};

use answer_lines::Answers;
use reflection::Refusal;
use spelling_parse::TypeSpelling;
use std::io;
use std::io::{BufWriter, Write};
use stderr::Failure;

// The longest text that is kept. Leading zeros have no limit, so a run of zeros is kept to its first eight: in front of a number the others change
// nothing, and after another digit eight make it too large already. What is longer even so is no spelling: one has at most three numbers.
const LONGEST: usize = 1048576;

// The bytes that one read asks for.
const BLOCK: usize = 65536;

// Prints what a text spells.
fn put_numbers<W: Write>(out: &mut W, t: TypeSpelling) -> io::Result<()>
    ensures { OnOk result (Appends (W.contents out.old) (W.contents out.new) (numbers_line t)) }
{
    stdout::put_decimal(out, t.class)?;
    stdout::put_fields(out, &[t.base, t.rows, t.columns, t.elements])?;
    stdout::put_byte(out, b'\n')
}

// The text that is being read, and how many of its bytes are kept: `None` where it had no room.
#[derive(Drop)]
struct Line {
    bytes: [u8; LONGEST],
    held: Option<usize>,
}

impl Line {
    // Keeps one byte more.
    fn keep(&mut self, b: u8) {
        let Some(n) = self.held else {
            return;
        };
        if LONGEST <= n {
            self.held = None;
        } else if b != b'0' || !self.bytes[..n].ends_with(b"00000000") {
            self.bytes[n] = b;
            self.held = Some(n + 1);
        }
    }

    // What the text spells; one that had no room is no spelling.
    fn spelled(&self) -> Result<TypeSpelling, Refusal> {
        let text = self.held.and_then(|n| self.bytes.get(..n));
        spelling_parse::parse_hlsl_type(text.ok_or(Refusal::NoSpelling)?)
    }
}

// The text that is being read, and what the texts before it were answered.
#[derive(Drop)]
struct Speller<W> {
    line: Line,
    answers: Answers<W>,
}

impl<W: Write> Speller<W> {
    // Answers the line, after which the next one begins.
    fn answer(&mut self) -> io::Result<()> {
        let spelled = self.line.spelled();
        self.line.held = Some(0);
        match spelled {
            Ok(t) => put_numbers(&mut self.answers.out, t),
            Err(refusal) => self.answers.put_refused(refusal),
        }
    }

    // Answers the lines that end in a block, which goes on with the line.
    fn answer_block(&mut self, block: &[u8]) -> io::Result<()> {
        for b in block {
            if *b == b'\n' {
                self.answer()?;
            } else {
                self.line.keep(*b);
            }
        }
        Ok(())
    }

    // Reads once, and answers the lines that end there. False where the input has ended.
    fn answer_some(&mut self, rt: &HostRuntime) -> Result<bool, Failure> {
        let mut block = [0u8; BLOCK];
        let n = input::standard_some(rt, &mut block).map_err(Failure::Input)?;
        self.answer_block(&block[..n]).map_err(Failure::Output)?;
        stdout::flush(&mut self.answers.out).map_err(Failure::Output)?;
        Ok(0 < n)
    }

    // Answers every line. A proved loop has to end, and nothing says that the input does, so it counts its turns: to a number that no run uses up.
    fn answer_all(&mut self, rt: &HostRuntime) -> Result<(), Failure> {
        for _ in 0..u64::MAX {
            if !self.answer_some(rt)? {
                break;
            }
        }
        if self.line.held != Some(0) {
            self.answer().map_err(Failure::Output)?;
        }
        stdout::flush(&mut self.answers.out).map_err(Failure::Output)
    }
}

// Answers every line to standard output, and keeps the first refusal. What still waits where a read or a write failed is tried once more as the writer
// ends: so it ends here, before standard error is written to.
fn spell(rt: &HostRuntime, refused: &mut Option<Refusal>) -> Result<(), Failure> {
    let mut speller = Speller {
        line: Line {
            bytes: [0; LONGEST],
            held: Some(0),
        },
        answers: Answers {
            out: BufWriter::new(rt.alloc(), rt.stdout()).map_err(Failure::Output)?,
            refused: None,
        },
    };
    let answered = speller.answer_all(rt);
    *refused = speller.answers.refused;
    answered
}

// The first text that was refused is said even where a read or a write failed.
fn main(rt: HostRuntime) -> Result<(), Failure> {
    let mut refused = None;
    let answered = spell(&rt, &mut refused);
    stderr::refused(&rt, b"", refused)?;
    answered
}
