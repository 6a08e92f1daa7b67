//! What a path names in an instance of the flat walk.
#![tactic(auto)]

mod arguments;
mod item;
mod own_names;
mod scope;
mod scopes;
mod symbols;
mod target;

pub use scopes::Scopes;
pub use target::Target;
