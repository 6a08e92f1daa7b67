//! Texts of evidence about models that are read from texts, and the verdicts on them.
#![tactic(auto)]

#[cfg(test)]
mod reading;
#[cfg(test)]
mod texts;
#[cfg(test)]
mod verdicts;
