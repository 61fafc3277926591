// An answer as numbers: C takes it as a number and words (include/nontrefalcu.h).
ghost use Rattle.std.specs.Prelude.{◌≡◌, ◌≤◌, length as size};
ghost use Rattle.reflection.specs.Limits.{chunk_limit};
ghost use Rattle.nontrefalcu.specs.Exports.{number_of, result_table, one_word, LengthFits};

use reflection::Refusal;

// 0, and the answer's words in `table`, zeros after them; or the refusal's number, and zeros.
pub(crate) fn hand<const N: usize>(answer: Result<[u32; N], Refusal>, table: &mut [u32]) -> u32
    ensures number { result ≡ number_of answer.entry }
    ensures words { table.new ≡ result_table (λ w. w) answer.entry (size table.old) }
{
    words::clear(table);
    match answer {
        Err(refusal) => u32::from(refusal),
        Ok(row) => {
            words::overwrite(table, 0, &row);
            0
        }
    }
}

// A length as a word.
fn length_word(n: usize) -> [u32; 1]
    requires { n ≤ chunk_limit }
    ensures { result ≡ one_word n }
{
    [n as u32]
}

// The same of a written text's length.
pub(crate) fn hand_length(written: Result<usize, Refusal>, length: &mut [u32]) -> u32
    requires { LengthFits written }
    ensures answer { result ≡ number_of written }
    ensures length { length.new ≡ result_table one_word written (size length.old) }
{
    hand(written.map(length_word), length)
}
