// The flags of a listing: the names of those that are set, or hex where none has a name.
ghost use Rattle.std.specs.Prelude.{cond, [], ◌∷◌, ◌++◌, ◌+◌, ◌≤◌, eqb, length};
ghost use Rattle.text_output.specs.Cursor.{farthest};
ghost use Rattle.text_output.specs.Output.{Appended};
ghost use Rattle.listing.specs.Names.{flag_names};
ghost use Rattle.listing.specs.Listing.{set_names, flags_part};

use flags::BindingFlags;
use text_output::Output;

// Writes a name, after a `;` where a name stands before it from `start` on.
fn put_name(out: &mut Output<'_>, start: usize, name: &[u8])
    requires { out.old.at + 1 ≤ farthest }
    ensures text { Appended out.old out.new (cond (eqb out.old.at start) [] (59 ∷ []) ++ name.now) }
    ensures near { out.new.at ≤ out.old.at + 1 + length name.now }
{
    if out.at != start {
        out.put_byte(b';');
    }
    out.put_bytes(name);
}

// Writes the names of the flags that are set, joined by `;`.
fn put_set_names(out: &mut Output<'_>, flags: BindingFlags)
    requires { out.old.at + 64 ≤ farthest }
    ensures { Appended out.old out.new (set_names flag_names flags.0) }
{
    let names: [(bool, &[u8]); 5] = [
        (flags.user_packed(), b"userPacked"),
        (flags.comparison_sampler(), b"comparisonSampler"),
        (flags.texture_component_0(), b"texComp0"),
        (flags.texture_component_1(), b"texComp1"),
        (flags.unused(), b"unused"),
    ];
    let start = out.at;
    for (set, name) in &names {
        if *set {
            put_name(out, start, name);
        }
    }
}

// Writes a space and the flags, where they are not 0.
pub(crate) fn put_flags(out: &mut Output<'_>, flags: BindingFlags)
    requires { out.old.at + 128 ≤ farthest }
    ensures { Appended out.old out.new (flags_part flags.0) }
{
    if flags.0 == 0 {
        return;
    }
    out.put_byte(b' ');
    let start = out.at;
    put_set_names(out, flags);
    if out.at == start {
        out.put_bytes(b"0x");
        out.put_hex(flags.0);
    }
}
