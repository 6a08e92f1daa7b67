//! Reduced ordered binary decision diagrams in one table of nodes with a budget.
#![tactic(auto)]

mod answers;
mod chains;
mod collection;
mod fault;
mod laws;
mod memo;
mod node;
mod operations;
mod questions;
mod refs;
mod store;
mod table;

pub use fault::{Full, NoMemory, TableFault};
pub use laws::{canonicity, size_is_need};
pub use node::{Part, Ref};
pub use operations::Op;
pub use refs::Refs;
pub use table::Table;
