// Variables, sections, buffers, bindings and the header of a chunk, placed and written: the canonical writer above types (document 01, "Canonical form").
#![tactic(auto)]

mod buffers;
mod chunk;
mod names;
mod records;
mod variables;

pub use chunk::write_chunk;
