//! The words of the command line, and what they ask for.
#![tactic(auto)]

mod brief;
mod job;
mod number;
mod options;
mod positional;
mod read;
mod sort;

pub use job::{Job, Opts, WordsFault};
pub use read::read_words;
