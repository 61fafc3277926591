// Places the types of variables: a type that was written before is found, any other is written with its members, in one pass (document 01, "Canonical form").
// Past a chunk's limit the chunk is refused, so types are no longer looked up or written.
#![tactic(auto)]

mod find;
mod put;
mod root;
mod write;

pub use root::place_root_type;
