//! States, as they are printed and read.

mod states;
