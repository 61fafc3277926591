// Writes words, padding and names. Stores past the output's end vanish; the cursor goes on.
#![tactic(auto)]

ghost use Rattle.std.specs.Prelude.{◌≡◌, [], ◌∷◌, ◌++◌, ◌+◌, ◌≤◌, ◌<◌, ◌^◌, length, replicate};
ghost use Rattle.words.specs.Words.{word_bytes};
ghost use Rattle.text_output.specs.Cursor.{farthest};
ghost use Rattle.text_output.specs.Output.{Appended};
ghost use Rattle.write_spec.specs.Step.{padding_at};
ghost use Rattle.write_bytes.specs.Bytes.{joined_bytes};

use text_output::Output;

// Writes a word. Where all four bytes have room they are one store of the machine.
fn put_word(out: &mut Output<'_>, word: u32)
    requires { out.old.at + 4 < 2 ^ 64 }
    ensures { Appended out.old out.new (word_bytes word) }
{
    let end = out.at + 4;
    if end <= out.bytes.len() {
        out.bytes[out.at..end].copy_from_slice(&word.to_le_bytes());
    } else {
        words::overwrite(out.bytes, out.at, &word.to_le_bytes());
    }
    out.at = end;
}

// Writes words, four bytes each.
pub fn put_word_bytes(out: &mut Output<'_>, words: &[u32])
    requires { out.old.at ≤ farthest }
    ensures { Appended out.old out.new (joined_bytes words.now) }
{
    for word in words {
        put_word(out, *word);
    }
}

// Writes padding up to a multiple of 4.
#[tactic(auto, using(crate::proofs::Stores::padding_bytes))]
pub fn put_padding(out: &mut Output<'_>)
    requires { out.old.at ≤ farthest }
    ensures { Appended out.old out.new (replicate (padding_at out.old.at) 0xab) }
{
    let end = out.at.next_multiple_of(4);
    out.put_bytes(&[0xab; 3][..end - out.at]);
}

// Writes a name's bytes and its NUL.
pub fn put_name(out: &mut Output<'_>, bytes: &[u8])
    requires { out.old.at ≤ farthest }
    ensures { Appended out.old out.new (bytes.now ++ (0 ∷ [])) }
{
    out.put_bytes(bytes);
    words::overwrite(out.bytes, out.at, &[0]);
    out.at += 1;
}
