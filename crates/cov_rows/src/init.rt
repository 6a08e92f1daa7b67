use crate::runs::{Given, expect};
use std::test::Fail;

/// Models, and the reports on their initial states.
const INITIAL: [(&str, &str); 11] = [
    ("MODULE main VAR", "initial\n  all\n"),
    (
        "MODULE main VAR a : boolean; INIT a & !a",
        "initial\n  none\n",
    ),
    (
        "MODULE main VAR a : boolean; b : boolean; INIT !(a & b)",
        "initial\n  a=FALSE\n  a=TRUE,b=FALSE\n",
    ),
    (
        "MODULE main VAR a : boolean; b : boolean; INIT a INIT b;",
        "initial\n  a=TRUE,b=TRUE\n",
    ),
    (
        "MODULE main VAR a : boolean; b : boolean; INIT a | b & !a",
        "initial\n  a=FALSE,b=TRUE\n  a=TRUE\n",
    ),
    // The instance's argument is declared behind it.
    (
        "MODULE main VAR a : m(b); b : boolean; INIT a.c MODULE m(p) VAR c : boolean; INVAR c -> p",
        "initial\n  b=TRUE,a.c=TRUE\n",
    ),
    (
        "MODULE main VAR a : boolean; b : boolean; ASSIGN init(a) := b; DEFINE c := a xor b; INVAR !c",
        "initial\n  a=FALSE,b=FALSE\n  a=TRUE,b=TRUE\n",
    ),
    (
        "MODULE main -- a comment\nVAR c : boolean;\r\n\tINIT TRUE",
        "initial\n  all\n",
    ),
    ("MODULE main VAR a : {x, y};", "initial\n  all\n"),
    (
        "MODULE main VAR a : 1..3; b : {x, y}; ASSIGN init(a) := {1, 3}; INIT a = 3 -> b = x",
        "initial\n  a=1\n  a=3,b=x\n",
    ),
    (
        "MODULE main VAR a : boolean; b : boolean; c : boolean; d : boolean; e : boolean; f : boolean; g : boolean; INIT !(a & g)",
        "initial\n  a=FALSE\n  a=TRUE,g=FALSE\n",
    ),
];

#[test]
fn initial_states(rt: HostRuntime) -> Result<(), Fail> {
    for (model, report) in INITIAL {
        expect(
            &rt,
            rt.alloc(),
            Given::of(&["init", "M"], model),
            0,
            report,
            "",
        )?;
    }
    Ok(())
}

/// Texts with a fault, and their error lines.
const FAULTY: [(&str, &str); 9] = [
    ("", "model: Syntax at 1:1\n"),
    ("MODULE main ?", "model: BadByte at 1:13\n"),
    ("MODULE main VAR a boolean;", "model: Syntax at 1:19\n"),
    (
        "MODULE main\nINIT 1000001 = 1",
        "model: RangeTooWide at 2:6\n",
    ),
    (
        "MODULE main INIT 1000001 = 1",
        "model: RangeTooWide at 1:18\n",
    ),
    (
        "MODULE main FROZENVAR a : boolean;",
        "model: LeftOut at 1:13 FROZENVAR\n",
    ),
    (
        "MODULE main VAR a : boolean; a : boolean;",
        "model: DuplicateName at 1:30\n",
    ),
    (
        "MODULE main VAR a : boolean; INIT b",
        "model: UnknownName at 1:35\n",
    ),
    ("MODULE m VAR a : boolean;", "model: NoMain at 1:1\n"),
];

#[test]
fn texts_with_a_fault(rt: HostRuntime) -> Result<(), Fail> {
    for (model, line) in FAULTY {
        expect(
            &rt,
            rt.alloc(),
            Given::of(&["init", "M"], model),
            3,
            "",
            line,
        )?;
    }
    Ok(())
}
