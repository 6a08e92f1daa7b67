//! Cuts a text into tokens.
#![tactic(auto)]

mod bytes;
mod front;
mod mark;
mod scan;
mod word;

pub use scan::lex;
pub use word::spelled;
