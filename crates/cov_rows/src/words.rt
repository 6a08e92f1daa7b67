//! Words that are a job, and words that are none.

use crate::runs::{Given, expect};
use std::alloc::Global;
use std::process::Abort;
use std::test::Fail;

const USAGE: &str = "usage: covsmv COMMAND MODEL [SIGNAL..] [OPTIONS]\n";

const MODEL: &str = "MODULE main VAR a : boolean; b : boolean; INIT !(a & b)";

/// The words ask for nothing.
fn refuses(rt: &impl Abort, alloc: Global, words: &[&str]) -> Result<(), Fail> {
    expect(rt, alloc, Given::of(words, MODEL), 2, "", USAGE)
}

/// The words ask for the first initial state of the model alone.
fn prints_one(rt: &impl Abort, alloc: Global, words: &[&str]) -> Result<(), Fail> {
    let report = "initial\n  a=FALSE\n  more\n";
    expect(rt, alloc, Given::of(words, MODEL), 0, report, "")
}

#[test]
fn words_without_one_model(rt: HostRuntime) -> Result<(), Fail> {
    let alloc = rt.alloc();
    let none: [&str; 0] = [];
    refuses(&rt, alloc, &none)?;
    refuses(&rt, alloc, &["init"])?;
    refuses(&rt, alloc, &["frob", "M"])?;
    refuses(&rt, alloc, &["M", "init"])?;
    refuses(&rt, alloc, &["--nodes", "9", "init", "M"])?;
    refuses(&rt, alloc, &["init", "M", "N"])?;
    refuses(&rt, alloc, &["init", "M", "--", "N"])?;
    refuses(&rt, alloc, &["init", "--"])?;
    refuses(&rt, alloc, &["init", "--", "M", "--nodes=9"])?;
    refuses(&rt, alloc, &["reach", "--nodes", "9"])
}

#[test]
fn words_with_another_option(rt: HostRuntime) -> Result<(), Fail> {
    let alloc = rt.alloc();
    refuses(&rt, alloc, &["--help"])?;
    refuses(&rt, alloc, &["init", "-M"])?;
    refuses(&rt, alloc, &["init", "M", "-h"])?;
    refuses(&rt, alloc, &["init", "M", "--version"])?;
    refuses(&rt, alloc, &["init", "M", "--longest", "9"])?;
    refuses(&rt, alloc, &["init", "M", "--node=9"])?;
    refuses(&rt, alloc, &["check", "M", "--cubes", "9"])?;
    refuses(&rt, alloc, &["check", "M", "--cubes=9"])
}

#[test]
fn words_with_options_that_stand_twice(rt: HostRuntime) -> Result<(), Fail> {
    let alloc = rt.alloc();
    refuses(&rt, alloc, &["init", "M", "--nodes", "9", "--nodes", "9"])?;
    refuses(&rt, alloc, &["init", "--nodes=9", "M", "--nodes", "9"])?;
    refuses(&rt, alloc, &["reach", "M", "--cubes=9", "--cubes=9"])
}

#[test]
fn words_with_no_number(rt: HostRuntime) -> Result<(), Fail> {
    let alloc = rt.alloc();
    refuses(&rt, alloc, &["init", "M", "--nodes"])?;
    refuses(&rt, alloc, &["init", "M", "--nodes="])?;
    refuses(&rt, alloc, &["init", "M", "--nodes", "0"])?;
    refuses(&rt, alloc, &["init", "M", "--nodes", "16000001"])?;
    refuses(&rt, alloc, &["init", "M", "--nodes", "0000000009"])?;
    refuses(&rt, alloc, &["init", "M", "--nodes", "+9"])?;
    refuses(&rt, alloc, &["init", "M", "--nodes", "-9"])?;
    refuses(&rt, alloc, &["init", "M", "--nodes", "nine"])?;
    refuses(&rt, alloc, &["init", "M", "--nodes", "--", "9"])?;
    refuses(&rt, alloc, &["init", "M", "--cubes", "100001"])?;
    refuses(&rt, alloc, &["init", "M", "--cubes=0"])
}

#[test]
fn options_stand_anywhere(rt: HostRuntime) -> Result<(), Fail> {
    let alloc = rt.alloc();
    prints_one(&rt, alloc, &["init", "M", "--cubes", "1"])?;
    prints_one(&rt, alloc, &["init", "M", "--cubes=1"])?;
    prints_one(&rt, alloc, &["init", "--cubes", "1", "M"])?;
    prints_one(&rt, alloc, &["init", "--cubes=000000001", "M"])?;
    prints_one(
        &rt,
        alloc,
        &["init", "--cubes=1", "--nodes", "16000000", "--", "M"],
    )?;
    let given = Given::of(&["check", "--nodes=1000", "--", "M"], MODEL);
    expect(&rt, alloc, given, 0, "no specifications\n", "")
}
