// A lent output with its cursor. Stores past the output's end vanish; the cursor goes on, and the end tells whether all fitted.
ghost use Rattle.std.specs.Prelude.{◌≡◌, [], ◌∷◌, ◌≤◌, length};
ghost use Rattle.text_output.specs.Cursor.{farthest, finished, kept};
ghost use Rattle.text_output.specs.Output.{Appended};

use reflection::Refusal;

#[derive(Drop)]
pub struct Output<'a> {
    pub bytes: &'a mut [u8],
    pub at: usize,
}

impl Output<'_> {
    // Writes one byte.
    #[tactic(auto, using(words::proofs::Splice::put_one, words::proofs::Splice::splice_past_end))]
    pub fn put_byte(&mut self, b: u8)
        requires { self.old.at ≤ farthest }
        ensures { Appended self.old self.new (b ∷ []) }
    {
        if self.at < self.bytes.len() {
            self.bytes[self.at] = b;
        }
        self.at += 1;
    }

    // Writes bytes.
    pub fn put_bytes(&mut self, bytes: &[u8])
        requires { self.old.at ≤ farthest }
        ensures { Appended self.old self.new bytes.now }
    {
        words::overwrite(self.bytes, self.at, bytes);
        self.at += bytes.len();
    }

    // The end of writing: the answer is the length, or 17 where not all fitted, and then zeros.
    #[tactic(auto, unfolding(crate::specs::Written::written_of, crate::specs::Written::output_of, crate::specs::Cursor::finished, crate::specs::Cursor::kept))]
    pub fn finish(&mut self) -> Result<usize, Refusal>
        ensures answer { result ≡ finished (length self.old.bytes.now) self.old.at }
        ensures out { self.new.bytes.now ≡ kept (finished (length self.old.bytes.now) self.old.at) self.old.bytes.now }
        ensures same { self.new.bytes.ghost_name ≡ self.old.bytes.ghost_name }
    {
        if self.at <= self.bytes.len().min(reflection::CHUNK_LIMIT) {
            Ok(self.at)
        } else {
            crate::refuse(self.bytes, Refusal::OutputTooSmall)
        }
    }
}
