// The spelling of a type, and the declaration line of a variable, written to a lent output.
ghost use Rattle.std.specs.Prelude.{◌≡◌, true, ◌&&◌, [], ◌∷◌, ◌++◌, ◌+◌, ◌≤◌, ◌^◌, List, ℕ, length};
ghost use Rattle.codes.specs.Variable.{base_type_row};
ghost use Rattle.reflection.specs.Outcome.{Outcome};
ghost use Rattle.text_output.specs.Digits.{decimal};
ghost use Rattle.text_output.specs.Written.{Answers};
ghost use Rattle.text_output.specs.Cursor.{farthest};
ghost use Rattle.text_output.specs.Output.{Appended};
ghost use Rattle.text_output.specs.Printable.{printable};
ghost use Rattle.text_output.specs.declared.output.Output.{Output};
ghost use Rattle.spelling.specs.Names.{base_names, name_in};
ghost use Rattle.spelling.specs.Spelling.{by_name, bytes_of, dimensions, array_suffix, type_spelling};
ghost use Rattle.spelling.specs.Spelling.{fields_fit, type_name, declaration};
ghost use Rattle.spelling.specs.Parts.{MayPut, Puts};

use codes::{BaseType, VariableClass};
use reflection::{Refusal, Text, Texts, TypeDesc};
use text_output::Output;

// Whether a type goes by its own name.
#[tactic(auto, unfolding(crate::specs::Spelling::by_name))]
fn by_name(t: TypeDesc) -> bool
    ensures { result ≡ by_name t }
{
    t.member_count > 0 || t.class == u32::from(VariableClass::Struct)
}

// The name of a base type.
fn base_name(base: BaseType) -> &'static [u8]
    ensures { result.now ≡ bytes_of (name_in base_names (base_type_row base).1) }
{
    match base {
        BaseType::Bool => b"bool",
        BaseType::Int => b"int",
        BaseType::Float => b"float",
        BaseType::Uint => b"uint",
        BaseType::Double => b"double",
    }
}

// Writes rows, `x` and columns.
fn put_matrix(out: &mut Output<'_>, rows: u32, columns: u32)
    requires { out.old.at + 21 ≤ farthest }
    ensures text { Appended out.old out.new (decimal rows ++ (120 ∷ decimal columns)) }
    ensures near { out.new.at ≤ out.old.at + 21 }
{
    out.put_decimal(rows);
    out.put_byte(b'x');
    out.put_decimal(columns);
}

// Writes what follows the base: nothing for a scalar, the columns of a vector, rows, `x` and columns of a matrix. None for any other class.
fn put_dimensions(out: &mut Output<'_>, t: TypeDesc) -> Option<()>
    requires { out.old.at + 21 ≤ farthest }
    ensures text { MayPut (dimensions t.class t.rows t.columns) out.old out.new result }
    ensures near { out.new.at ≤ out.old.at + 21 }
{
    let known = VariableClass::try_from(t.class).ok()?;
    match known {
        VariableClass::Scalar => Some(()),
        VariableClass::Vector => {
            out.put_decimal(t.columns);
            Some(())
        }
        VariableClass::MatrixRows | VariableClass::MatrixColumns => {
            put_matrix(out, t.rows, t.columns);
            Some(())
        }
        VariableClass::Object
        | VariableClass::Struct
        | VariableClass::InterfaceClass
        | VariableClass::InterfacePointer => None,
    }
}

// Writes `[N]` where there are elements.
fn put_suffix(out: &mut Output<'_>, elements: u32)
    requires { out.old.at + 12 ≤ farthest }
    ensures text { Appended out.old out.new (array_suffix elements) }
    ensures near { out.new.at ≤ out.old.at + 12 }
{
    if elements != 0 {
        out.put_byte(b'[');
        out.put_decimal(elements);
        out.put_byte(b']');
    }
}

// Writes the spelling of a type with that name; None where it has none.
fn put_spelling(out: &mut Output<'_>, name: &[u8], t: TypeDesc) -> Option<()>
    requires { out.old.at + 39 ≤ farthest }
    ensures text { MayPut (type_spelling name.now t) out.old out.new result }
    ensures near { out.new.at ≤ out.old.at + 39 + length name.now }
{
    if by_name(t) {
        if name.is_empty() {
            return None;
        }
        out.put_bytes(name);
        return Some(());
    }
    let known = BaseType::try_from(t.var_type).ok()?;
    out.put_bytes(base_name(known));
    put_dimensions(out, t)?;
    put_suffix(out, t.elements);
    Some(())
}

// Whether a type is readable as far as its spelling needs it: its name, and the fields of 16 bits.
#[tactic(auto, using(crate::proofs::WriteRefusals::same_fit))]
fn type_readable(texts: Texts<'_>, t: TypeDesc) -> bool
    ensures { result ≡ (printable texts.entry.chunk.now texts.entry.edits.now t.name && fields_fit t) }
{
    text_output::printable(texts, t.name) && t.fits_u16()
}

// Writes the spelling of a type from the output's start, or says why it is not spelled.
fn write_type(texts: Texts<'_>, t: TypeDesc, out: &mut Output<'_>) -> Result<(), Refusal>
    requires { out.old.at ≡ 0 }
    ensures text { Puts (type_name texts.entry.chunk.now texts.entry.edits.now t) out.old out.new result }
    ensures near { out.new.at ≤ 2 ^ 33 }
{
    if !type_readable(texts, t) {
        return Err(Refusal::NotReadable);
    }
    write_readable_type(texts, t, out)
}

// The same of a type that is readable.
fn write_readable_type(texts: Texts<'_>, t: TypeDesc, out: &mut Output<'_>) -> Result<(), Refusal>
    requires start { out.old.at ≡ 0 }
    requires readable { (printable texts.chunk.now texts.edits.now t.name && fields_fit t) ≡ true }
    ensures text { Puts (type_name texts.entry.chunk.now texts.entry.edits.now t) out.old out.new result }
    ensures near { out.new.at ≤ 2 ^ 33 }
{
    let name = texts.name_part(t.name);
    put_spelling(out, name, t).ok_or(Refusal::NoSpelling)
}

// Writes the declaration of a variable from the output's start: the spelling of its type, a space, its name and a semicolon. Or says why not.
fn write_declaration(
    texts: Texts<'_>,
    t: TypeDesc,
    name: Text,
    out: &mut Output<'_>,
) -> Result<(), Refusal>
    requires { out.old.at ≡ 0 }
    ensures { Puts (declaration texts.entry.chunk.now texts.entry.edits.now t name) out.old out.new result }
{
    // The type first: where it is refused, no look is taken at the name, however long that is.
    if !type_readable(texts, t) || !text_output::printable(texts, name) {
        return Err(Refusal::NotReadable);
    }
    write_readable_type(texts, t, out)?;
    out.put_byte(b' ');
    out.put_bytes(texts.name_part(name));
    out.put_byte(b';');
    Ok(())
}

// The answer by what was written: its length, where all of it fitted; a refusal zeroes the output.
fn answer(out: &mut Output<'_>, written: Result<(), Refusal>) -> Result<usize, Refusal>
    ensures answer { (outcome : Outcome (List ℕ)) (lent : Output) → lent.at ≡ 0 → Puts outcome lent out.old written
        → Answers outcome lent.bytes.now out.new.bytes.now result }
    ensures same { out.new.bytes.ghost_name ≡ out.old.bytes.ghost_name }
{
    match written {
        Ok(()) => out.finish(),
        Err(refusal) => text_output::refuse(out.bytes, refusal),
    }
}

// `hlsl_type_name`: the spelling of a type.
pub fn hlsl_type_name(texts: Texts<'_>, t: TypeDesc, out: &mut [u8]) -> Result<usize, Refusal>
    ensures { Answers (type_name texts.entry.chunk.now texts.entry.edits.now t) out.old out.new result }
{
    let mut line = Output { bytes: out, at: 0 };
    let written = write_type(texts, t, &mut line);
    answer(&mut line, written)
}

// The declaration line of a variable with that type and name.
pub fn declaration(
    texts: Texts<'_>,
    t: TypeDesc,
    name: Text,
    out: &mut [u8],
) -> Result<usize, Refusal>
    ensures { Answers (declaration texts.entry.chunk.now texts.entry.edits.now t name) out.old out.new result }
{
    let mut line = Output { bytes: out, at: 0 };
    let written = write_declaration(texts, t, name, &mut line);
    answer(&mut line, written)
}
