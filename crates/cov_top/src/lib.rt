//! The top call: words and files in, a report and a status out.
#![tactic(auto)]

mod error_line;
mod input;
mod position;
mod program;
mod reading;
mod refusal;
mod status;
mod transfer;

pub use cov_jobs::AskFault;
pub use program::run;
pub use status::{InputFault, Status};
