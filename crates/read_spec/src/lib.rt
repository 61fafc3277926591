// The definition of reading stands in specs/; the code that meets it is in read_types, read_tables and read, whose walks answer alike: why they refused,
// if they did; how many records each table has stands in what they fill.
#![tactic(auto)]

// A number of records for each table: how many it has, or how many it can take.
#[derive(Clone, Copy, Default)]
pub struct Counts {
    pub bindings: usize,
    pub buffers: usize,
    pub variables: usize,
    pub types: usize,
}
