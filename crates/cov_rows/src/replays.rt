//! Replays of evidence.

use cov_io::{MemFiles, MemSink};
use cov_space::Meter;
use cov_top::run;
use std::alloc::Global;
use std::process::Abort;
use std::test::Fail;

/// A model, the text of evidence if there is a file of it, and the status, the report and the error line of its replay.
type Row = (
    &'static str,
    Option<&'static str>,
    u8,
    &'static str,
    &'static str,
);

/// FALSE and TRUE in turn, which the property examines at TRUE.
const TURNS: &str =
    "MODULE main VAR q : boolean; ASSIGN init(q) := 0; next(q) := !q; SPEC AG (!q -> AX q)";

/// TRUE again and again.
const AGAIN: &str = "MODULE main VAR ack : boolean; FAIRNESS ack SPEC AG AF ack";

/// A request that never comes.
const REQUEST: &str =
    "MODULE main VAR req : boolean; ack : boolean; ASSIGN req := 0; SPEC AG (req -> AF ack)";

/// A property that no one path shows to be false.
const BRANCHING: &str =
    "MODULE main VAR q : boolean; ASSIGN init(q) := 0; next(q) := !q; SPEC EX q";

/// One row for each verdict.
const VERDICTS: [Row; 13] = [
    (
        TURNS,
        Some("covsmv evidence 1\nspec 1\nsignal q\nat q=TRUE\nstem\nturn\nq=FALSE\nq=TRUE\nend\n"),
        0,
        "accepted\n",
        "",
    ),
    (
        TURNS,
        Some("covsmv evidence 1\nspec 2\nsignal q\nat q=TRUE\nstem\nturn\nq=FALSE\nq=TRUE\nend\n"),
        1,
        "rejected: NoSuchSpec\n",
        "",
    ),
    (
        TURNS,
        Some("covsmv evidence 1\nspec 1\noccurrence 7\nstem\nturn\nq=FALSE\nq=TRUE\nend\n"),
        1,
        "rejected: NoSuchOccurrence\n",
        "",
    ),
    (
        BRANCHING,
        Some("covsmv evidence 1\nspec 1\noccurrence 2\nstem\nturn\nq=FALSE\nq=TRUE\nend\n"),
        1,
        "rejected: NotLinear\n",
        "",
    ),
    (
        REQUEST,
        Some(
            "covsmv evidence 1\nspec 1\noccurrence 3\nstem\nreq=FALSE,ack=FALSE\nturn\nreq=TRUE,ack=FALSE\nend\n",
        ),
        1,
        "rejected: NotState 2\n",
        "",
    ),
    (
        TURNS,
        Some("covsmv evidence 1\nspec 1\nsignal q\nat q=TRUE\nstem\nturn\nq=TRUE\nq=FALSE\nend\n"),
        1,
        "rejected: NotInitial\n",
        "",
    ),
    (
        TURNS,
        Some("covsmv evidence 1\nspec 1\nsignal q\nat q=TRUE\nstem\nturn\nq=FALSE\nq=FALSE\nend\n"),
        1,
        "rejected: BadStep 1\n",
        "",
    ),
    (
        TURNS,
        Some("covsmv evidence 1\nspec 1\nsignal q\nat q=TRUE\nstem\nturn\nq=FALSE\nend\n"),
        1,
        "rejected: NotClosed\n",
        "",
    ),
    (
        AGAIN,
        Some(
            "covsmv evidence 1\nspec 1\nsignal ack\nat ack=TRUE\nstem\nack=TRUE\nturn\nack=FALSE\nend\n",
        ),
        1,
        "rejected: Unfair 1\n",
        "",
    ),
    (
        AGAIN,
        Some("covsmv evidence 1\nspec 1\nsignal ack\nat ack=FALSE\nstem\nturn\nack=TRUE\nend\n"),
        1,
        "rejected: NotAt\n",
        "",
    ),
    (
        TURNS,
        Some("covsmv evidence 1\nspec 1\nsignal q\nat q=FALSE\nstem\nturn\nq=FALSE\nq=TRUE\nend\n"),
        1,
        "rejected: NotRefuted\n",
        "",
    ),
    (
        AGAIN,
        Some("covsmv evidence 1\nspec 1\nsignal ack\nat ack=TRUE\nstem\nturn\nack=TRUE\nend\n"),
        0,
        "accepted\n",
        "",
    ),
    (
        REQUEST,
        Some("covsmv evidence 1\nspec 1\noccurrence 3\nstem\nturn\nreq=FALSE,ack=FALSE\nend\n"),
        0,
        "accepted\n",
        "",
    ),
];

/// What refuses a text before it is judged.
const REFUSALS: [Row; 10] = [
    (
        AGAIN,
        Some("covsmv evidence 1\nspec 1\nsignal ack\nat ack=TRUE\nstem\nturn\nack=TRUE\n"),
        3,
        "",
        "evidence: Cut at line 8\n",
    ),
    (
        AGAIN,
        Some("covsmv evidence 1\nspec 1\nsignal ack\nat ack=TRUE\nstem\nturn\nack = TRUE\nend\n"),
        3,
        "",
        "evidence: Line at line 7\n",
    ),
    (
        AGAIN,
        Some("covsmv evidence 1\nspec 1\nsignal ack\nat ack=TRUE\nstem\nturn\nack=1\nend\n"),
        3,
        "",
        "evidence: BadValue at line 7\n",
    ),
    (
        AGAIN,
        Some("covsmv evidence 2\nspec 1\nsignal ack\nat ack=TRUE\nstem\nturn\nack=TRUE\nend\n"),
        3,
        "",
        "evidence: Header at line 1\n",
    ),
    (
        AGAIN,
        Some("covsmv evidence 1\nspec 1\nsignal req\nat ack=TRUE\nstem\nturn\nack=TRUE\nend\n"),
        3,
        "",
        "evidence: UnknownName at line 3\n",
    ),
    (
        AGAIN,
        Some("covsmv evidence 1\nspec 1\nsignal ack\nat ack=TRUE\nstem\nturn\nack=TRUE\nend\n\n"),
        3,
        "",
        "evidence: Trailing at line 9\n",
    ),
    (AGAIN, Some(""), 3, "", "evidence: Cut at line 1\n"),
    (
        "MODULE main VAR",
        Some(""),
        3,
        "",
        "evidence: Cut at line 1\n",
    ),
    ("MODULE", Some(""), 3, "", "model: Syntax at 1:7\n"),
    ("MODULE", None, 4, "", "read failed\n"),
];

/// Runs a replay, and compares the status, the report and the error line.
fn expect(rt: &impl Abort, alloc: Global, row: Row) -> Result<(), Fail> {
    let (model, evidence, status, report, line) = row;
    let mut words = Vec::new(alloc);
    for word in ["replay", "M", "E"] {
        words.push(String::from_str(alloc, word)?)?;
    }
    let mut files = MemFiles::new(alloc);
    files.add(b"M", model.as_bytes())?;
    if let Some(text) = evidence {
        files.add(b"E", text.as_bytes())?;
    }
    let mut out = MemSink::new(alloc, 1_000_000);
    let mut err = MemSink::new(alloc, 1_000_000);
    let mut meter = Meter::new();
    let found = run(
        alloc,
        words.as_slice(),
        &mut files,
        &mut out,
        &mut err,
        &mut meter,
    );
    assert_eq!(rt; out.bytes(), report.as_bytes());
    assert_eq!(rt; err.bytes(), line.as_bytes());
    assert_eq!(rt; found.code(), status);
    Ok(())
}

#[test]
fn each_verdict_is_told(rt: HostRuntime) -> Result<(), Fail> {
    for row in VERDICTS {
        expect(&rt, rt.alloc(), row)?;
    }
    Ok(())
}

#[test]
fn both_files_are_read_and_the_model_is_judged_first(rt: HostRuntime) -> Result<(), Fail> {
    for row in REFUSALS {
        expect(&rt, rt.alloc(), row)?;
    }
    Ok(())
}
