//! Initial and reachable states of models of any finite types.

use crate::runs::{Given, expect};
use std::test::Fail;

/// Each state but the last has one step.
const COUNTER: &str =
    "MODULE main VAR x : 0..2; ASSIGN init(x) := 0; next(x) := x + 1; SPEC AG x = 0";

/// A main module and two cells, the second of which is fed by the first.
const CELLS: &str = "MODULE main
VAR mode : {idle, work, rest};
    a : cell(mode = work);
    b : cell(a.out);
ASSIGN init(mode) := idle;
  next(mode) := case mode = idle : work; mode = work : rest; 1 : idle; esac;
SPEC AG (a.out -> AX b.out)
MODULE cell(d)
VAR out : boolean;
ASSIGN init(out) := 0; next(out) := d;
";

#[test]
fn initial_states_of_cells(rt: HostRuntime) -> Result<(), Fail> {
    let report = "initial\n  mode=idle,a.out=FALSE,b.out=FALSE\n";
    let given = Given::of(&["init", "M"], CELLS);
    expect(&rt, rt.alloc(), given, 0, report, "")
}

#[test]
fn reachable_states(rt: HostRuntime) -> Result<(), Fail> {
    for (model, report) in [
        (COUNTER, "reachable\n  all\n"),
        (
            CELLS,
            "reachable\n  mode=idle,a.out=FALSE\n  mode=work,a.out=FALSE,b.out=FALSE\n  mode=rest,a.out=TRUE,b.out=FALSE\n",
        ),
        (
            "MODULE main VAR a : boolean; INIT a & !a",
            "reachable\n  none\n",
        ),
        (
            "MODULE main VAR a : boolean; INIT a TRANS FALSE",
            "reachable\n  a=TRUE\n",
        ),
        (
            "MODULE main VAR a : boolean; b : boolean; INIT !a & !b TRANS next(a) & !next(b) INVAR !(a & b)",
            "reachable\n  b=FALSE\n",
        ),
    ] {
        expect(
            &rt,
            rt.alloc(),
            Given::of(&["reach", "M"], model),
            0,
            report,
            "",
        )?;
    }
    Ok(())
}

#[test]
fn the_first_cubes(rt: HostRuntime) -> Result<(), Fail> {
    let report = "reachable\n  mode=idle,a.out=FALSE\n  more\n";
    let given = Given::of(&["reach", "M", "--cubes", "1"], CELLS);
    expect(&rt, rt.alloc(), given, 0, report, "")
}
