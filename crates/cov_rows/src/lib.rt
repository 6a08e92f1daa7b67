//! Whole runs over files and sinks in memory: what the program reads, reports and tells.
#![tactic(auto)]

#[cfg(test)]
mod budgets;
#[cfg(test)]
mod check;
#[cfg(test)]
mod cover;
#[cfg(test)]
mod failures;
#[cfg(test)]
mod faults;
#[cfg(test)]
mod init;
#[cfg(test)]
mod readings;
#[cfg(test)]
mod replays;
#[cfg(test)]
mod runs;
#[cfg(test)]
mod states;
#[cfg(test)]
mod vacuity;
#[cfg(test)]
mod words;
