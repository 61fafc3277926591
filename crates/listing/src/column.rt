// Columns of a listing: a text or a number, filled up with spaces to a width. How far a cursor may be (`farthest`, `near`) is said so that none wraps.
ghost use Rattle.std.specs.Prelude.{◌≡◌, ◌&&◌, ◌∷◌, ◌+◌, ◌-◌, ◌≤◌, leb, length, replicate};
ghost use Rattle.text_output.specs.Cursor.{farthest};
ghost use Rattle.text_output.specs.Digits.{decimal};
ghost use Rattle.text_output.specs.Output.{Appended};
ghost use Rattle.listing.specs.Listing.{scalars, pad_to};

use text_output::Output;

// Whether a byte continues a sequence of UTF-8.
fn continues(b: u8) -> bool
    ensures { result ≡ (leb 0x80 b && leb b 0xbf) }
{
    (0x80..=0xbf).contains(&b)
}

// How many Unicode scalar values a text has: as many as bytes that do not continue a sequence. A sum is compiled to a loop over several bytes at once, `filter`
// and `count` to one over single bytes.
fn scalar_count(bytes: &[u8]) -> usize
    ensures { result ≡ scalars bytes.now }
{
    bytes.iter().map(|b| usize::from(!continues(*b))).sum()
}

// Writes the spaces that a column lacks which has `used` scalar values. With `saturating_sub` for the test, each later cursor would be computed anew from all
// widths before it.
fn pad(out: &mut Output<'_>, used: usize, width: usize)
    requires { (out.old.at ≤ farthest) × (width ≤ 20) }
    ensures { Appended out.old out.new (replicate (width - used) 32) }
{
    if used < width {
        let spaces = [b' '; 20];
        out.put_bytes(&spaces[..width - used]);
    }
}

// Writes a text, filled up.
pub(crate) fn put_padded(out: &mut Output<'_>, bytes: &[u8], width: usize)
    requires { (out.old.at + length bytes.now ≤ farthest) × (width ≤ 20) }
    ensures text { Appended out.old out.new (pad_to width bytes.now) }
    ensures near { out.new.at ≤ out.old.at + length bytes.now + width }
{
    out.put_bytes(bytes);
    pad(out, scalar_count(bytes), width);
}

// Writes a space and a text, filled up.
pub(crate) fn put_text(out: &mut Output<'_>, bytes: &[u8], width: usize)
    requires { (out.old.at + 1 + length bytes.now ≤ farthest) × (width ≤ 20) }
    ensures text { Appended out.old out.new (32 ∷ pad_to width bytes.now) }
    ensures near { out.new.at ≤ out.old.at + 1 + length bytes.now + width }
{
    out.put_byte(b' ');
    put_padded(out, bytes, width);
}

// Writes a space and a number in decimal, filled up. A digit is one scalar value.
pub(crate) fn put_number(out: &mut Output<'_>, n: u32, width: usize)
    requires { (out.old.at + 16 ≤ farthest) × (width ≤ 20) }
    ensures text { Appended out.old out.new (32 ∷ pad_to width (decimal n)) }
    ensures near { out.new.at ≤ out.old.at + 11 + width }
{
    out.put_byte(b' ');
    let start = out.at;
    out.put_decimal(n);
    pad(out, out.at - start, width);
}
