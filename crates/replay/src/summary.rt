// How many cases had each answer, and the lines that say so.
use reflection::Refusal;
use std::io;
use std::io::Write;

// How many answers are told apart: 0 and each refusal.
pub const ANSWERS: usize = Refusal::NoSpelling as usize + 1;

// How many cases were refused with each number, from the first to the last.
pub fn refused_lines<W: Write>(
    out: &mut W,
    answers: &[u32; ANSWERS],
    first: Refusal,
    last: Refusal,
) -> io::Result<()> {
    for number in u32::from(first)..=u32::from(last) {
        if let Some(cases) = answers.get(number as usize) {
            stdout::put_line(out, b"refused", &[number, *cases])?;
        }
    }
    Ok(())
}

// Counts an answer.
pub fn count(answers: &mut [u32; ANSWERS], number: u32) {
    if let Some(cases) = answers.get_mut(number as usize) {
        *cases = cases.saturating_add(1);
    }
}
