// Replays stored answers of the Rust (oracle/README.md has the files' form). For each of the files `reading`, `canonical` and `spelling` it prints the
// file's name, the index of each case that differs, then how many cases were replayed, how many had each answer, and how many differ. What the port
// is lent has 0xdd in every byte before, so that what it does not set is seen. Then come the reports of the chunks on standard input.
#![tactic(auto)]

use canonical::Canonical;
use cases::{Cases, FILE_LIMIT, Stored};
use reading::Reading;
use spelled::Spelling;
use std::io;
use std::io::{BufWriter, Write};
use std::rt::Files;
use summary::ANSWERS;

mod canonical;
mod cases;
mod reading;
mod reports;
mod spelled;
mod summary;

// Replays the cases of a file, one after the other. A file that is cut, or that has more than its cases, is a bad one. Not inlined, so that the tables of
// its cases are given back before the reports.
#[inline(never)]
fn replay_all<C: Cases, W: Write>(out: &mut W, cases: &mut C, file: &[u8]) -> io::Result<()> {
    let mut stored = Stored::new(file);
    let mut answers = [0u32; ANSWERS];
    let mut replayed: u32 = 0;
    let mut different: u32 = 0;
    let count = stored.number();
    for i in 0..count.unwrap_or(0) {
        let Some(case) = cases.replay(&mut stored) else {
            break;
        };
        summary::count(&mut answers, case.number);
        if !case.same {
            stdout::put_line(out, b"case", &[i])?;
            different = different.saturating_add(1);
        }
        replayed = i + 1;
    }
    stdout::put_line(out, b"cases", &[replayed])?;
    cases.answer_lines(out, &answers)?;
    stdout::put_line(out, b"different", &[different])?;
    if count != Some(replayed) || !stored.is_empty() {
        stdout::put_bytes(out, b"bad file\n")?;
    }
    Ok(())
}

// Replays a file.
fn replay_file<C: Cases + Drop, W: Write>(
    rt: &impl Files,
    out: &mut W,
    name: &str,
    mut cases: C,
    all: &mut [u8; FILE_LIMIT],
) -> io::Result<()> {
    writeln!(out, "{name}")?;
    if let Some(file) = cases::read_cases(rt, out, name, all)? {
        replay_all(out, &mut cases, file)?;
    }
    Ok(())
}

fn main(rt: HostRuntime) -> io::Result<()> {
    let mut out = BufWriter::new(rt.alloc(), rt.stdout())?;
    let mut all = [0u8; FILE_LIMIT];
    replay_file(&rt, &mut out, "reading", Reading, &mut all)?;
    replay_file(&rt, &mut out, "canonical", Canonical, &mut all)?;
    replay_file(&rt, &mut out, "spelling", Spelling::default(), &mut all)?;
    reports::print_reports(&rt, &mut out)?;
    stdout::flush(&mut out)
}
