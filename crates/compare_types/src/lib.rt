// The types of a table: which of two are equal, and which node comes after one.
#![tactic(auto)]

mod node;
mod pair;
mod same;
mod skip;

pub use node::TypeNode;
pub use same::{same_name, same_type, same_type_between};
pub use skip::{has_member, skip_type};
