//! The report of a job on a model: sets of states, and verdicts with what lies behind them.
#![tactic(auto)]

mod coverage;
mod detail;
mod details;
mod fault;
mod head;
mod occurrences;
mod replay;
mod report;
mod sections;
mod specifications;
mod states;

pub use detail::Detail;
pub use fault::{AskFault, JobFault};
pub use replay::replay_report;
pub use report::{Report, job_report};
