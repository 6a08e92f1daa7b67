//! Families of sets: one set of rows for a list of values, the number of a value being held on layer W.
#![tactic(auto)]

mod adding;
mod choose;
mod combine;
mod index;
mod listed;
mod read;
mod rows;
mod table;

pub use choose::{put_choice, put_if};
pub use combine::put_combined;
pub use index::index_of;
pub use listed::put_listed;
pub use read::{put_carried, put_read};
pub use table::Table;
