//! Small texts, and what they are read as or printed as: files, words of the command line, tokens, tables, trees, formulas and reports.
#![tactic(auto)]

#[cfg(test)]
mod asking;
#[cfg(test)]
mod files;
#[cfg(test)]
mod lines;
#[cfg(test)]
mod tables;
#[cfg(test)]
mod tokens;
#[cfg(test)]
mod trees;
