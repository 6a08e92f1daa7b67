//! Reads programs from tokens, by levels with one token ahead.
#![tactic(auto)]

mod depth;
mod entries;
mod error;
mod expressions;
mod fault;
mod meanings;
mod modules;
mod parts;
mod program;
mod sections;
mod steps;
mod tables;
mod types;

pub use program::parse;
