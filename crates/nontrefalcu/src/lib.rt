// The proved library's functions with numbers and slices only. The crate `nontrefalcu_c` exports each under its own name, for C and Rust.
#![tactic(auto)]

mod answer;
mod canonical;
mod header;
mod list;
mod parse;
mod refusal;
mod spell;
mod write_payload;

pub use canonical::nontrefalcu_write_canonical;
pub use list::nontrefalcu_list_binding;
pub use parse::nontrefalcu_parse_rdef;
pub use refusal::nontrefalcu_refusal_text;
pub use spell::{nontrefalcu_declaration, nontrefalcu_parse_type, nontrefalcu_type_name};
pub use write_payload::nontrefalcu_write_payload;
