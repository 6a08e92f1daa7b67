//! Evidence and its text.
#![tactic(auto)]

mod ending;
mod fault;
mod front;
mod lines;
mod number;
mod read;
mod states;
mod write;

pub use cov_claims::{Claim, Evidence};
pub use fault::{EvidFault, EvidFaultKind, EvidRefused};
pub use read::read_evidence;
pub use write::write_evidence;
