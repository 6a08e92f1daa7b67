//! Whole runs in which each call that may fail does so in turn, with each budget of nodes, and on each front of a text.
#![tactic(auto)]

#[cfg(test)]
mod budgets;
#[cfg(test)]
mod fronts;
#[cfg(test)]
mod outside;
#[cfg(test)]
mod runs;
