use crate::runs::{Given, expect};
use std::alloc::Global;
use std::process::Abort;
use std::test::Fail;

/// It changes its one bit at each step.
const TOGGLE: &str = "MODULE main
VAR q : boolean;
ASSIGN init(q) := FALSE; next(q) := !q;
SPEC AG (!q -> AX q)
";

const TOGGLE_REPORT: &str = "spec 1 passes: AG (!q -> AX q)
  signal q
    covered
      q=TRUE
    uncovered
      q=FALSE
";

/// A property of both states covers both.
const BOTH: &str = "MODULE main
VAR q : boolean;
ASSIGN init(q) := FALSE; next(q) := !q;
SPEC AG (!q -> AX q) & AG (q -> AX !q)
";

const BOTH_REPORT: &str = "spec 1 passes: AG (!q -> AX q) & AG (q -> AX !q)
  signal q
    covered
      all
    uncovered
      none
";

/// Fairness reads the signal as it is.
const FAIR: &str = "MODULE main VAR ack : boolean; FAIRNESS ack SPEC AG AF ack";

const FAIR_REPORT: &str = "spec 1 passes: AG AF ack
  signal ack
    covered
      ack=TRUE
    uncovered
      ack=FALSE
";

/// The specification reads the DEFINE d through another one.
const THROUGH: &str = "MODULE main
VAR q : boolean;
DEFINE d := !q; e := d | d;
ASSIGN init(q) := FALSE; next(q) := !q;
SPEC AG (e -> AX q)
";

const THROUGH_REPORT: &str = "spec 1 passes: AG (e -> AX q)
  signal d
    covered
      q=TRUE
    uncovered
      q=FALSE
";

/// The first specification fails.
const FAILING: &str = "MODULE main
VAR q : boolean;
ASSIGN init(q) := FALSE; next(q) := !q;
SPEC AG q
SPEC AG (!q -> AX q)
";

const FAILING_REPORT: &str = "spec 1 fails: AG q
  fails, not measured
spec 2 passes: AG (!q -> AX q)
  signal q
    covered
      q=TRUE
    uncovered
      q=FALSE
";

/// A main module and two cells, the second of which is fed by the first.
const CELLS: &str = "MODULE main
VAR mode : {idle, work, rest};
    a : cell(mode = work);
    b : cell(a.out);
ASSIGN init(mode) := idle;
  next(mode) := case mode = idle : work; mode = work : rest; 1 : idle; esac;
SPEC AG (a.out -> AX b.out)
MODULE cell(d)
VAR out : boolean;
ASSIGN init(out) := 0; next(out) := d;
";

const CELLS_REPORT: &str = "spec 1 passes: AG (a.out -> AX b.out)
  signal b.out
    covered
      mode=idle,a.out=FALSE,b.out=TRUE
    uncovered
      mode={idle,work},a.out=FALSE,b.out=FALSE
      mode=rest,a.out=TRUE,b.out=FALSE
";

const CELLS_CUT: &str = "spec 1 passes: AG (a.out -> AX b.out)
  signal b.out
    covered
      mode=idle,a.out=FALSE,b.out=TRUE
    uncovered
      mode={idle,work},a.out=FALSE,b.out=FALSE
      more
";

/// Nothing is covered where no path is fair.
const UNFAIR: &str = "MODULE main VAR ack : boolean; FAIRNESS FALSE SPEC AG ack";

const UNFAIR_REPORT: &str = "no fair initial state
spec 1 passes: AG ack
  signal ack
    covered
      none
    uncovered
      all
";

/// The words, on the model, end so.
fn prints(
    rt: &impl Abort,
    alloc: Global,
    words: &[&str],
    model: &str,
    status: u8,
    report: &str,
) -> Result<(), Fail> {
    expect(rt, alloc, Given::of(words, model), status, report, "")
}

#[test]
fn covered_states(rt: HostRuntime) -> Result<(), Fail> {
    let alloc = rt.alloc();
    let words = ["cover", "M", "q"];
    prints(&rt, alloc, &words, TOGGLE, 0, TOGGLE_REPORT)?;
    prints(&rt, alloc, &words, BOTH, 0, BOTH_REPORT)?;
    prints(&rt, alloc, &words, FAILING, 1, FAILING_REPORT)?;
    prints(&rt, alloc, &["cover", "M", "d"], THROUGH, 0, THROUGH_REPORT)
}

#[test]
fn covered_states_of_fair_paths(rt: HostRuntime) -> Result<(), Fail> {
    let alloc = rt.alloc();
    let words = ["cover", "M", "ack"];
    prints(&rt, alloc, &words, FAIR, 0, FAIR_REPORT)?;
    prints(&rt, alloc, &words, UNFAIR, 0, UNFAIR_REPORT)
}

#[test]
fn covered_states_of_three_modules(rt: HostRuntime) -> Result<(), Fail> {
    let alloc = rt.alloc();
    let words = ["cover", "M", "b.out"];
    prints(&rt, alloc, &words, CELLS, 0, CELLS_REPORT)?;
    let words = ["cover", "M", "b.out", "--cubes", "1"];
    prints(&rt, alloc, &words, CELLS, 0, CELLS_CUT)
}

#[test]
fn a_signal_that_the_model_lacks(rt: HostRuntime) -> Result<(), Fail> {
    let line = "asked: UnknownSignal z\n";
    let alloc = rt.alloc();
    let behind = Given::of(&["cover", "M", "q", "z"], TOGGLE);
    expect(&rt, alloc, behind, 8, "", line)?;
    let both = Given::of(&["cover", "M", "z", "y"], TOGGLE);
    expect(&rt, alloc, both, 8, "", line)
}

#[test]
fn few_nodes_and_a_sink_that_fails(rt: HostRuntime) -> Result<(), Fail> {
    let words = ["cover", "M", "q", "--nodes", "64"];
    expect(
        &rt,
        rt.alloc(),
        Given::of(&words, TOGGLE),
        0,
        TOGGLE_REPORT,
        "",
    )?;
    let given = Given {
        most: 16,
        failing_put: 3,
        ..Given::of(&["cover", "M", "q"], TOGGLE)
    };
    let put = "spec 1 passes: AG (!q -> AX q)\n ";
    expect(&rt, rt.alloc(), given, 5, put, "write failed\n")
}
