use crate::runs::{Given, expect};
use std::test::Fail;

/// Models, with the status and the report of their check.
const VERDICTS: [(&str, u8, &str); 12] = [
    (
        "MODULE main VAR q : boolean; TRANS next(q) & !q | !next(q) & q SPEC AG (q | !q)",
        0,
        "spec 1 passes: AG (q | !q)\n",
    ),
    (
        "MODULE main VAR q : boolean; INIT !q TRANS next(q) SPEC AG !q",
        1,
        "spec 1 fails: AG !q\n",
    ),
    (
        "MODULE main VAR q : boolean; TRANS FALSE SPEC AG q",
        0,
        "no fair initial state\nspec 1 passes: AG q\n",
    ),
    (
        "MODULE main VAR q : boolean; INIT q",
        0,
        "no specifications\n",
    ),
    // The state that breaks the property is reached by two steps.
    (
        "MODULE main VAR a : boolean; b : boolean; INIT !a & !b TRANS !next(b) | a SPEC AG !b;",
        1,
        "spec 1 fails: AG !b\n",
    ),
    // It is reached by no lasso, since it has no step.
    (
        "MODULE main VAR a : boolean; b : boolean; INIT !a & !b TRANS !b SPEC AG (!b | a & b & !a)",
        0,
        "spec 1 passes: AG (!b | a & b & !a)\n",
    ),
    // A fair path comes to `a` again and again.
    (
        "MODULE main VAR a : boolean; FAIRNESS a SPEC AG AF a SPEC EG !a",
        1,
        "spec 1 passes: AG AF a\nspec 2 fails: EG !a\n",
    ),
    // No path is fair.
    (
        "MODULE main VAR ack : boolean; FAIRNESS FALSE SPEC AG ack",
        0,
        "no fair initial state\nspec 1 passes: AG ack\n",
    ),
    (
        "MODULE main VAR q : boolean; ASSIGN init(q) := FALSE; next(q) := !q; SPEC E[!q U q] SPEC AX EX !q",
        0,
        "spec 1 passes: E[!q U q]\nspec 2 passes: AX EX !q\n",
    ),
    // The first specification alone fails.
    (
        "MODULE main VAR q : boolean; ASSIGN init(q) := FALSE; next(q) := !q; SPEC AG q SPEC AG (!q -> AX q)",
        1,
        "spec 1 fails: AG q\nspec 2 passes: AG (!q -> AX q)\n",
    ),
    // The counter comes to a value that it can't leave.
    (
        "MODULE main VAR x : 0..2; ASSIGN init(x) := 0; next(x) := x + 1; SPEC AG x = 0",
        0,
        "no fair initial state\nspec 1 passes: AG x = 0\n",
    ),
    (
        "MODULE main VAR q : boolean; FAIRNESS FALSE",
        0,
        "no fair initial state\nno specifications\n",
    ),
];

#[test]
fn verdicts(rt: HostRuntime) -> Result<(), Fail> {
    for (model, status, report) in VERDICTS {
        expect(
            &rt,
            rt.alloc(),
            Given::of(&["check", "M"], model),
            status,
            report,
            "",
        )?;
    }
    Ok(())
}
