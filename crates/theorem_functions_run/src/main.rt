// Runs `theorem_functions::write_pair` and `theorem_functions::write_read_write` on a stored pair of chunks and prints what it saw. Both chunks hold document
// 01's case V with a default of four bytes; the defaults differ, and so does where the chunks have them and the creator.
#![tactic(auto)]

use reflection::Texts;
use std::io;
use std::io::{BufWriter, Write};
use theorem_functions::Side;
use whole_tables::WholeTables;
use write_spec::SCRATCH_WORDS;

mod seen;

// Standard input is A's chunk and then B's, laid out by hand from case V: A has its default at 112, behind the creator; B has it at 116 and for a creator the
// NUL of `$Globals`. Document 01 says where the canonical form has it: at 108, with a length of 116.
const LENGTH_A: usize = 116;

const LENGTH_B: usize = 120;

const INPUT: usize = LENGTH_A + LENGTH_B;

// The bytes of each lent output.
const ROOM: usize = 128;

// A chunk with its text of edits, and the tables that it is read into; then what is lent to write what they hold, and the tables to read that again.
#[derive(Drop)]
struct Lent<'a> {
    texts: Texts<'a>,
    tables: WholeTables,
    scratch: [u32; SCRATCH_WORDS],
    out: [u8; ROOM],
    found: WholeTables,
}

impl<'a> Lent<'a> {
    // Nothing is edited. All else is zeros, which are laid straight where the caller has them: an array of another word would be copied there.
    fn new(chunk: &'a [u8]) -> Lent<'a> {
        Lent {
            texts: Texts { chunk, edits: &[] },
            tables: WholeTables::new(),
            scratch: [0; SCRATCH_WORDS],
            out: [0; ROOM],
            found: WholeTables::new(),
        }
    }

    // What scratch and output hold before they are lent.
    fn fill(&mut self, word: u32, byte: u8) {
        self.scratch.fill(word);
        self.out.fill(byte);
    }
}

// Writes A and B, reads both, and prints what it saw.
fn pair<W: Write>(lines: &mut W, a: &mut Lent<'_>, b: &mut Lent<'_>) -> io::Result<()> {
    let (Ok(def_a), Ok(def_b)) = (a.tables.read(a.texts.chunk), b.tables.read(b.texts.chunk)) else {
        return Ok(());
    };
    let mut side_a = Side {
        texts: a.texts,
        r: a.tables.reflection(def_a),
        scratch: &mut a.scratch,
        out: &mut a.out,
        found: &mut a.found,
    };
    let mut side_b = Side {
        texts: b.texts,
        r: b.tables.reflection(def_b),
        scratch: &mut b.scratch,
        out: &mut b.out,
        found: &mut b.found,
    };
    let pair = theorem_functions::write_pair(&mut side_a, &mut side_b);
    let n = seen::length(pair.a);
    let count = seen::variables(pair.a);
    seen::answer_line(lines, "a", pair.a)?;
    seen::answer_line(lines, "b", pair.b)?;
    seen::place_line(lines, "place a", &a.out, &a.found.variables)?;
    seen::place_line(lines, "place b", &b.out, &b.found.variables)?;
    let outside = seen::differing(&a.out, &b.out, &a.found.variables, count, n, false);
    let inside = seen::differing(&a.out, &b.out, &a.found.variables, count, n, true);
    seen::number_line(lines, "differ outside", outside)?;
    seen::number_line(lines, "differ inside", inside)?;
    seen::bool_line(lines, "past a kept", seen::kept(&a.out, n, 0x11))?;
    seen::bool_line(lines, "past b kept", seen::kept(&b.out, n, 0x22))?;
    seen::bool_line(lines, "scratch a zero", seen::zero(&a.scratch))?;
    seen::bool_line(lines, "scratch b zero", seen::zero(&b.scratch))
}

// Writes a chunk's reflection, reads it, writes what was read, and prints what it saw.
fn twice<W: Write>(lines: &mut W, a: &mut Lent<'_>, second: &mut [u8; ROOM]) -> io::Result<()> {
    let Ok(def) = a.tables.read(a.texts.chunk) else {
        return Ok(());
    };
    let both = theorem_functions::write_read_write(
        a.texts,
        a.tables.reflection(def),
        &mut a.scratch,
        &mut a.out,
        &mut a.found,
        second,
    );
    let n = seen::length(both.first);
    seen::answer_line(lines, "first", both.first)?;
    seen::written_line(lines, "again", both.again)?;
    let different = seen::differing(&a.out, second, &a.found.variables, 0, n, false);
    seen::number_line(lines, "differ again", different)
}

fn main(rt: HostRuntime) -> io::Result<()> {
    let mut chunks = [0u8; INPUT];
    input::standard_full(&rt, &mut chunks)?;
    let mut a = Lent::new(&chunks[..LENGTH_A]);
    let mut b = Lent::new(&chunks[LENGTH_A..]);
    a.fill(7, 0x11);
    b.fill(8, 0x22);
    let mut lines = BufWriter::new(rt.alloc(), rt.stdout())?;
    pair(&mut lines, &mut a, &mut b)?;
    twice(&mut lines, &mut a, &mut b.out)?;
    stdout::flush(&mut lines)
}
