//! Small runs of the engine's lower layers: diagrams, spaces, images, the operators under fairness, and the plain checker.
#![tactic(auto)]

#[cfg(test)]
mod diagrams;
#[cfg(test)]
mod images;
#[cfg(test)]
mod operators;
#[cfg(test)]
mod spaces;
#[cfg(test)]
mod structures;
