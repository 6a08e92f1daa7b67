//! Expressions as sets: the family of the choices of an expression, by recursion over its tree.
#![tactic(auto)]

mod choices;
mod chunks;
mod expression;
mod leaves;
mod operation;
mod scope;
mod truths;
mod values;
mod walk;

pub use expression::put_expr;
pub use scope::Scope;
