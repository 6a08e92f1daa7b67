//! A model as sets of pairs of states: its initial, valid and reachable states, its steps, its fairness sets, and the
//! truth of atoms.
#![tactic(auto)]

mod atoms;
mod build;
mod differing;
mod fairness;
mod lists;
mod meeting;
mod names;
mod putting;
mod standing;
mod starts;
mod states;
mod steps;
mod sys;

pub use sys::Sys;
