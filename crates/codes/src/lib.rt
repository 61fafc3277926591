// The codes of an RDEF chunk: Microsoft's enumerations as enums. The two flag words are crate flags'.
// Each enum has Microsoft's numbers as its own, so that `from` is a cast. `try_from` is the table, arm by arm: one macro for all the impls is not allowed,
// and a search in a table of pairs is no plainer.
#![tactic(auto)]

mod dimension;
mod input_type;
mod unknown;
mod variable;

pub use dimension::ResourceDimension;
pub use input_type::ResourceInputType;
pub use unknown::UnknownCode;
pub use variable::{BaseType, VariableClass};
