//! The flat model of a program: its instance tree walked, each path resolved.
#![tactic(auto)]

mod assigns;
mod conditions;
mod copy;
mod definitions;
mod doubles;
mod faults;
mod forms;
mod instance;
mod model;
mod naming;
mod path;
mod reader;
mod spelling;
mod unknown;
mod values;
mod variables;
mod whole;

pub use whole::flatten;
