// Whether two reflections in lent tables are equal: their numbers, and their names and defaults by their bytes (document 01, "What a reflection holds").
#![tactic(auto)]

mod records;
mod reflections;

pub use reflections::same_reflection;
