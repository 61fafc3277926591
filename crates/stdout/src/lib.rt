// What the programs print, to any writer. A function that answers `Ok` has added the bytes that its clause names to those that the writer held, where
// these are known (of standard output no contract can say them). An error of the writer is handed on at once: nothing more is written.
#![tactic(auto)]

ghost use Rattle.std.specs.Prelude.{◌≡◌, ◌<◌, [], ◌∷◌, ◌++◌, OnOk};
ghost use Rattle.std.specs.Fmt.{decimal};
ghost use Rattle.std.specs.Io.KnownBytes.{Keeps, Appends};
ghost use Rattle.reflection.specs.Refusals.{refusal_number};
ghost use Rattle.text_output.specs.Digits.{hex_digit};
ghost use Rattle.stdout.specs.Output.{fields, hex, refused_line};

use reflection::Refusal;
use std::io;
use std::io::Write;

// Adds a byte.
pub fn put_byte<W: Write>(out: &mut W, b: u8) -> io::Result<()>
    ensures { OnOk result (Appends (W.contents out.old) (W.contents out.new) (b ∷ [])) }
{
    out.write_all(&[b])
}

// Adds bytes.
pub fn put_bytes<W: Write>(out: &mut W, bytes: &[u8]) -> io::Result<()>
    ensures { OnOk result (Appends (W.contents out.old) (W.contents out.new) bytes.now) }
{
    out.write_all(bytes)
}

// Adds a number in decimal.
pub fn put_decimal<W: Write>(out: &mut W, n: u32) -> io::Result<()>
    ensures { OnOk result (Appends (W.contents out.old) (W.contents out.new) (decimal n)) }
{
    write!(out, "{n}")
}

// Adds numbers in decimal, with a tab before each.
pub fn put_fields<W: Write>(out: &mut W, numbers: &[u32]) -> io::Result<()>
    ensures { OnOk result (Appends (W.contents out.old) (W.contents out.new) (fields numbers.now)) }
{
    for n in numbers {
        put_byte(out, b'\t')?;
        put_decimal(out, *n)?;
    }
    Ok(())
}

// Adds a line: its name, and numbers in decimal with a tab before each.
pub fn put_line<W: Write>(out: &mut W, name: &[u8], numbers: &[u32]) -> io::Result<()>
    ensures { OnOk result (Appends (W.contents out.old) (W.contents out.new) (name.now ++ fields numbers.now ++ 10 ∷ [])) }
{
    put_bytes(out, name)?;
    put_fields(out, numbers)?;
    put_byte(out, b'\n')
}

// A number below 16 as a lower-case digit.
fn hex_digit(n: u8) -> u8
    requires { n < 16 }
    ensures { result ≡ hex_digit n }
{
    if n < 10 { b'0' + n } else { b'a' + (n - 10) }
}

// Adds bytes in lower-case hex, or `-` where there are none.
pub fn put_hex<W: Write>(out: &mut W, bytes: &[u8]) -> io::Result<()>
    ensures { OnOk result (Appends (W.contents out.old) (W.contents out.new) (hex bytes.now)) }
{
    if bytes.is_empty() {
        return put_byte(out, b'-');
    }
    for b in bytes {
        out.write_all(&[hex_digit(b / 16), hex_digit(b % 16)])?;
    }
    Ok(())
}

// Adds the line of a refused chunk: `refused`, a tab, the number.
pub fn put_refused_number<W: Write>(out: &mut W, number: u32) -> io::Result<()>
    ensures { OnOk result (Appends (W.contents out.old) (W.contents out.new) (refused_line number)) }
{
    writeln!(out, "refused\t{number}")
}

// The same by the refusal.
pub fn put_refused<W: Write>(out: &mut W, refusal: Refusal) -> io::Result<()>
    ensures { OnOk result (Appends (W.contents out.old) (W.contents out.new) (refused_line (refusal_number refusal))) }
{
    put_refused_number(out, u32::from(refusal))
}

// Writes what waits.
pub fn flush<W: Write>(out: &mut W) -> io::Result<()>
    ensures { Keeps (W.contents out.old) (W.contents out.new) }
{
    out.flush()
}
