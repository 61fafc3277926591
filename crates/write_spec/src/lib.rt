// The definition of the canonical form stands in specs/; the code is in the crates from write_bytes to write.
#![tactic(auto)]

// How many words of scratch the writer needs (docs/ROOM.md).
pub const SCRATCH_WORDS: usize = 95360;
