//! Runs with few nodes.

use cov_io::{MemFiles, MemSink};
use cov_space::{Meter, NodesFull};
use cov_top::{Status, run};
use itoa::Buffer;
use std::alloc::Global;
use std::process::Abort;
use std::test::Fail;

/// One bit; 99 * 2^3 nodes are enough for it.
const TOGGLE: &str = "MODULE main VAR q : boolean; ASSIGN init(q) := FALSE; next(q) := !q;";

/// The same with a property; 243 * 2^3 nodes are enough for it.
const COVERED: &str =
    "MODULE main VAR q : boolean; ASSIGN init(q) := FALSE; next(q) := !q; SPEC AG (!q -> AX q) & AG (q -> AX !q)";

/// What is run, and its whole report.
#[derive(Clone, Copy)]
struct Case<'a> {
    words: &'a [&'a str],
    model: &'a str,
    report: &'a str,
}

const COVERED_REPORT: &str = "spec 1 passes: AG (!q -> AX q) & AG (q -> AX !q)
  signal q
    covered
      all
    uncovered
      none
";

/// How a run ends.
#[derive(Clone, Copy)]
struct End {
    status: Status,
    /// Whether it printed the whole report, or nothing.
    whole: bool,
    nothing: bool,
    /// Of how many refusals the meter was told, and with which levels and budget.
    count: u64,
    levels: u16,
    budget: u32,
}

/// The words with a node budget.
fn words(alloc: Global, given: &[&str], budget: u32) -> Result<Vec<String>, Fail> {
    let mut buffer = Buffer::new();
    let mut words = Vec::new(alloc);
    for word in given {
        words.push(String::from_str(alloc, word)?)?;
    }
    for word in ["--nodes", buffer.format(budget)] {
        words.push(String::from_str(alloc, word)?)?;
    }
    Ok(words)
}

/// Runs with a node budget.
fn end_of(alloc: Global, case: Case<'_>, budget: u32) -> Result<End, Fail> {
    let words = words(alloc, case.words, budget)?;
    let mut files = MemFiles::new(alloc);
    files.add(b"M", case.model.as_bytes())?;
    let mut out = MemSink::new(alloc, 1_000_000);
    let mut err = MemSink::new(alloc, 1_000_000);
    let mut meter = Meter::new();
    let status = run(
        alloc,
        words.as_slice(),
        &mut files,
        &mut out,
        &mut err,
        &mut meter,
    );
    Ok(End {
        status,
        whole: out.bytes() == case.report.as_bytes(),
        nothing: out.bytes().is_empty(),
        count: meter.count(),
        levels: meter.levels(),
        budget: meter.budget(),
    })
}

/// The operation that was refused was told to the meter, and the numbers agree with the budget.
fn expect_short(rt: &impl Abort, end: &End, full: NodesFull, levels: u16, budget: u32) {
    assert_eq!(rt; full.held, budget);
    assert_eq!(rt; full.budget, budget);
    assert_eq!(rt; end.count, 1);
    assert_eq!(rt; end.levels, levels);
    assert_eq!(rt; end.budget, budget);
    assert!(rt; end.nothing);
    assert_eq!(rt; end.status.code(), 6);
}

/// The whole report was printed, and no operation was refused.
fn expect_whole(rt: &impl Abort, end: &End) {
    assert!(rt; end.whole);
    assert_eq!(rt; end.count, 0);
    assert_eq!(rt; end.status.code(), 0);
}

/// At each budget below the bound the report is whole or the nodes ran out, and at the bound it is whole.
fn every_budget(rt: &impl Abort, alloc: Global, case: Case<'_>, enough: u32) -> Result<(), Fail> {
    for budget in 1..enough {
        let end = end_of(alloc, case, budget)?;
        match end.status {
            Status::Nodes(full) => expect_short(rt, &end, full, 3, budget),
            _ => expect_whole(rt, &end),
        }
    }
    let end = end_of(alloc, case, enough)?;
    expect_whole(rt, &end);
    Ok(())
}

#[test]
fn reachable_states_of_one_bit(rt: HostRuntime) -> Result<(), Fail> {
    let words = ["reach", "M"];
    let case = Case {
        words: &words,
        model: TOGGLE,
        report: "reachable\n  all\n",
    };
    every_budget(&rt, rt.alloc(), case, 792)
}

#[test]
fn covered_states_of_one_bit(rt: HostRuntime) -> Result<(), Fail> {
    let words = ["cover", "M", "q"];
    let case = Case {
        words: &words,
        model: COVERED,
        report: COVERED_REPORT,
    };
    every_budget(&rt, rt.alloc(), case, 1944)
}

#[test]
fn one_node(rt: HostRuntime) -> Result<(), Fail> {
    let model = "MODULE main VAR a : boolean; b : boolean; INIT !(a & b)";
    let words = ["reach", "M"];
    let case = Case {
        words: &words,
        model,
        report: "",
    };
    let end = end_of(rt.alloc(), case, 1)?;
    match end.status {
        Status::Nodes(full) => expect_short(&rt, &end, full, 6, 1),
        other => assert_eq!(rt; other.code(), 6),
    }
    Ok(())
}
