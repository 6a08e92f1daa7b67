//! Small models and their parts, and what the layers below the engine tell of them: kinds, order, formulas, and sets of numbers.
#![tactic(auto)]

#[cfg(test)]
mod dependence;
#[cfg(test)]
mod families;
#[cfg(test)]
mod fields;
#[cfg(test)]
mod formulas;
#[cfg(test)]
mod kinds;
#[cfg(test)]
mod walks;
