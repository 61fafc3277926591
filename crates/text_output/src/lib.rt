// Text written to a lent output, piece after piece. Stores past the output's end vanish; the cursor goes on, and the end tells whether all fitted.
#![tactic(auto)]

ghost use Rattle.std.specs.Prelude.{◌≡◌, Err, length, replicate};
ghost use Rattle.text_output.specs.Written.{written_of, output_of};

use reflection::Refusal;

mod name;
mod number;
mod output;

pub use name::printable;
pub use output::Output;

// A refusal: the output is zeroed.
#[tactic(auto, unfolding(crate::specs::Written::written_of, crate::specs::Written::output_of))]
pub fn refuse(out: &mut [u8], refusal: Refusal) -> Result<usize, Refusal>
    ensures answer { result ≡ written_of (Err refusal) }
    ensures out { out.new ≡ output_of (Err refusal) out.old }
{
    out.fill(0);
    Err(refusal)
}
