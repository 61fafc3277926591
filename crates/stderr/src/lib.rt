// What a program says on standard error: why an input was refused, and which of its streams failed.
#![tactic(auto)]

ghost use Rattle.std.specs.Prelude.{◌≡◌, OnOk};
ghost use Rattle.std.specs.Io.KnownBytes.{Appends};
ghost use Rattle.stderr.specs.Refused.{first_of, container, message_of_number, message};

use reflection::Refusal;
use std::io::{BufWriter, Write};
use std::{fmt, io};

// The stream that failed, and how. `main` ends with it, and std says it.
#[derive(Drop)]
pub enum Failure {
    Input(io::Error),
    Output(io::Error),
    Message(io::Error),
}

impl fmt::Debug for Failure {
    fn fmt<W: fmt::Write>(&self, f: &mut fmt::Formatter<W>) -> fmt::Result {
        match self {
            Failure::Input(e) => write!(f, "standard input: {e}"),
            Failure::Output(e) => write!(f, "standard output: {e}"),
            Failure::Message(e) => write!(f, "standard error: {e}"),
        }
    }
}

// Keeps the first refusal.
pub fn keep_first(first: &mut Option<Refusal>, refusal: Refusal)
    ensures { first.new ≡ first_of first.old refusal }
{
    keep_first_of(first, refusal);
}

// The same of whatever stands for a refusal, as any number.
pub fn keep_first_of<T: Copy>(first: &mut Option<T>, item: T)
    ensures { first.new ≡ first_of first.old item }
{
    first.get_or_insert(item);
}

// Adds what is said of a chunk that is a DXBC container.
fn put_container<W: Write>(to: &mut W, chunk: &[u8]) -> io::Result<()>
    ensures { OnOk result (Appends (W.contents to.old) (W.contents to.new) (container chunk.now)) }
{
    if chunk.starts_with(b"DXBC") {
        writeln!(
            to,
            "the input is a DXBC container, of which an RDEF chunk is a part: take that out first"
        )
    } else {
        Ok(())
    }
}

// Adds why a chunk, or the first of some texts, was refused, by the refusal's number; nothing where it is 0. A chunk that is a DXBC container is named as
// such.
pub fn put_refused_number<W: Write>(to: &mut W, chunk: &[u8], number: u32) -> io::Result<()>
    ensures { OnOk result (Appends (W.contents to.old) (W.contents to.new) (message_of_number chunk.now number)) }
{
    if number == 0 {
        return Ok(());
    }
    let sentence = refusal_text::sentence_of(number);
    writeln!(to, "refused {number}: {sentence}")?;
    put_container(to, chunk)
}

// The same by the refusal; nothing where nothing was refused.
pub fn put_refused<W: Write>(to: &mut W, chunk: &[u8], refused: Option<Refusal>) -> io::Result<()>
    ensures { OnOk result (Appends (W.contents to.old) (W.contents to.new) (message chunk.now refused)) }
{
    put_refused_number(to, chunk, refused.map_or(0, u32::from))
}

// `put_refused` to standard error, in one write; nothing is done where nothing was refused.
pub fn refused(rt: &HostRuntime, chunk: &[u8], refused: Option<Refusal>) -> Result<(), Failure> {
    if refused.is_some() {
        let mut to = BufWriter::new(rt.alloc(), rt.stderr()).map_err(Failure::Message)?;
        put_refused(&mut to, chunk, refused).map_err(Failure::Message)?;
        to.flush().map_err(Failure::Message)?;
    }
    Ok(())
}
