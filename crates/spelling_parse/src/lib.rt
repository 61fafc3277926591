// Spellings of types, read (document 01, "Spelling and listing").
#![tactic(auto)]

mod parse;

pub use parse::parse_hlsl_type;

// What a spelling says.
#[derive(Clone, Copy)]
pub struct TypeSpelling {
    pub class: u32,
    pub base: u32,
    pub rows: u32,
    pub columns: u32,
    pub elements: u32,
}
