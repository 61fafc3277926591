// Reading a spelling: the numbers that a text such as `float4x3[2]` says (`parse_hlsl_type` in the Rust).
ghost use Rattle.std.specs.Prelude.{◌≡◌, Some, None, MatchOption};
ghost use Rattle.spelling.specs.Names.{base_number};
ghost use Rattle.spelling_parse.specs.Grammar.{split_once, before_digit, from_digit, without_plus, number, shape, core, parse_type, spelled_type};
ghost use Rattle.spelling_parse.specs.GrammarParts.{elements_of, base_read, dimensions_read};

use crate::TypeSpelling;
use codes::{BaseType, VariableClass};
use reflection::{Refusal, U16_LIMIT};

// What follows the base.
#[derive(Clone, Copy)]
struct Dimensions {
    class: VariableClass,
    rows: u32,
    columns: u32,
}

// The bytes before and after the first byte c; None where it does not occur.
fn split_once(text: &[u8], c: u8) -> Option<(&[u8], &[u8])>
    ensures { MatchOption result (split_once c text.now ≡ None) (λ p. split_once c text.now ≡ Some (p.0.now, p.1.now)) }
{
    let i = text.iter().position(|b| *b == c)?;
    Some((&text[..i], &text[i + 1..]))
}

// The bytes before the first digit, and those from it on.
fn split_at_digit(text: &[u8]) -> (&[u8], &[u8])
    ensures before { result.0.now ≡ before_digit text.now }
    ensures from { result.1.now ≡ from_digit text.now }
{
    let digit = text.iter().position(|b| b.is_ascii_digit());
    text.split_at(digit.unwrap_or(text.len()))
}

// A text without a leading `+`.
fn without_plus(text: &[u8]) -> &[u8]
    ensures { result.now ≡ without_plus text.now }
{
    match text {
        [b'+', others @ ..] => others,
        _ => text,
    }
}

// A number that fits 16 bits: one decimal digit or more, after a `+` or not.
// (`parse` of a `u16` reads the same, but from a `&str`; with that, reading a spelling took a fifth longer.)
fn parse_number(text: &[u8]) -> Option<u32>
    ensures { result ≡ number text.now }
{
    let digits = without_plus(text);
    if digits.is_empty() {
        return None;
    }
    let mut value = 0;
    for b in digits {
        if !b.is_ascii_digit() {
            return None;
        }
        value = 10 * value + u32::from(b - b'0');
        if value >= U16_LIMIT {
            return None;
        }
    }
    Some(value)
}

// The base type of a name.
#[tactic(auto, using(crate::proofs::ParseBase::bases))]
fn parse_base(name: &[u8]) -> Option<BaseType>
    ensures { base_read result ≡ base_number name.now }
{
    match name {
        b"bool" => Some(BaseType::Bool),
        b"int" => Some(BaseType::Int),
        b"float" => Some(BaseType::Float),
        b"uint" => Some(BaseType::Uint),
        b"double" => Some(BaseType::Double),
        _ => None,
    }
}

// A scalar, vector or matrix by the text that follows the base.
fn parse_dimensions(text: &[u8]) -> Option<Dimensions>
    ensures { dimensions_read result ≡ shape text.now }
{
    if text.is_empty() {
        return Some(Dimensions {
            class: VariableClass::Scalar,
            rows: 1,
            columns: 1,
        });
    }
    match split_once(text, b'x') {
        Some((rows, columns)) => Some(Dimensions {
            class: VariableClass::MatrixColumns,
            rows: parse_number(rows)?,
            columns: parse_number(columns)?,
        }),
        None => Some(Dimensions {
            class: VariableClass::Vector,
            rows: 1,
            columns: parse_number(text)?,
        }),
    }
}

// A type without its array suffix.
fn parse_core(text: &[u8], elements: u32) -> Option<TypeSpelling>
    ensures { result ≡ core text.now elements }
{
    let (name, dimensions) = split_at_digit(text);
    let base = parse_base(name)?;
    let Dimensions {
        class,
        rows,
        columns,
    } = parse_dimensions(dimensions)?;
    Some(TypeSpelling {
        class: u32::from(class),
        base: u32::from(base),
        rows,
        columns,
        elements,
    })
}

// The number of elements, from what follows the first `[`.
#[tactic(auto, using(crate::proofs::ParseTypes::elements))]
fn parse_elements(rest: &[u8]) -> Option<u32>
    ensures { result ≡ elements_of rest.now }
{
    match rest {
        [inner @ .., b']'] => parse_number(inner),
        _ => None,
    }
}

// What a text spells; None where it is not understood.
fn parse_type(text: &[u8]) -> Option<TypeSpelling>
    ensures { result ≡ parse_type text.now }
{
    match split_once(text, b'[') {
        Some((core, rest)) => parse_core(core, parse_elements(rest)?),
        None => parse_core(text, 0),
    }
}

// The class, base, rows, columns and elements that a text spells, or a refusal where it is not understood.
pub fn parse_hlsl_type(text: &[u8]) -> Result<TypeSpelling, Refusal>
    ensures { result ≡ spelled_type (parse_type text.now) }
{
    parse_type(text).ok_or(Refusal::NoSpelling)
}
