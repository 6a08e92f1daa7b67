//! Whole runs from the text of a model to its modules, its flat model or its first fault, its signals and what it means.
#![tactic(auto)]

#[cfg(test)]
mod faults;
#[cfg(test)]
mod instances;
#[cfg(test)]
mod models;
#[cfg(test)]
mod paths;
#[cfg(test)]
mod reading;
#[cfg(test)]
mod signals;
