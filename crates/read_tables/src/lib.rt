// The walks of bindings, variables and buffers: each fills its table, one record after the other (document 01, "Walk order").
#![tactic(auto)]

mod bindings;
mod buffers;
mod filling;
mod variables;

pub use bindings::walk_bindings;
pub use buffers::walk_buffers;
pub use filling::BindingFilling;
pub use variables::walk_variables;
