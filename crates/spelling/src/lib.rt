// The spelling of types, written (document 01, "Spelling and listing").
#![tactic(auto)]

mod write;

pub use write::{declaration, hlsl_type_name};
