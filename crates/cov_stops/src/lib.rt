//! The flat walk of a program's instances as a table: each instance with its module, its declaration, and where its variables, its DEFINEs and
//! its own instances begin.
#![tactic(auto)]

mod counts;
mod put_off;
mod stops;
mod tour;

pub use stops::{Entry, Stops};
