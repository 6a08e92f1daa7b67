//! The modules of a program: a table of them by their names, and the first fault that keeps a program from being flattened, up to the size of its flat model.
#![tactic(auto)]

mod advice;
mod arguments;
mod check;
mod children;
mod clash;
mod declared;
mod duplicates;
mod instances;
mod main_module;
mod modules;
mod name_set;
mod nodes;
mod ranks;
mod reach;
mod recursion;
mod size;
mod sizes;

pub use check::check_modules;
pub use clash::put_symbols;
pub use main_module::main_place;
pub use modules::Modules;
pub use name_set::NameSet;
