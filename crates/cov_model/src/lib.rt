//! The model, and what it means: the value of an expression in a state, states, initial states and steps.
#![tactic(auto)]

mod eval;
mod frame;
mod model;
mod scratch;
mod state;

pub use model::{Assign, Cube, CubeList, Define, Lasso, Model, Signal, State, Var};
pub use scratch::Scratch;
pub use state::{atom_at, fair_at, is_initial, is_state, is_step, is_typed};
