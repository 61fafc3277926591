// The two flag words: which bits Microsoft's pages name, and which are allowed.
#![tactic(auto)]

mod binding_flags;
mod variable_flags;

pub use binding_flags::BindingFlags;
pub use variable_flags::VariableFlags;
