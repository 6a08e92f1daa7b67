use crate::runs::{Given, expect};
use std::test::Fail;

const MODEL: &str = "MODULE main VAR a : boolean; b : boolean; INIT !(a & b)";

const REPORT: &str = "initial\n  a=FALSE\n  a=TRUE,b=FALSE\n";

#[test]
fn a_missing_file_and_failing_reads(rt: HostRuntime) -> Result<(), Fail> {
    let words = ["init", "M"];
    expect(
        &rt,
        rt.alloc(),
        Given::of(&["init", "N"], MODEL),
        4,
        "",
        "read failed\n",
    )?;
    for failing_read in 1..4 {
        let given = Given {
            failing_read,
            ..Given::of(&words, MODEL)
        };
        expect(&rt, rt.alloc(), given, 4, "", "read failed\n")?;
    }
    let last = Given {
        failing_read: 4,
        ..Given::of(&words, MODEL)
    };
    expect(&rt, rt.alloc(), last, 0, REPORT, "")
}

#[test]
fn one_byte_a_put(rt: HostRuntime) -> Result<(), Fail> {
    let words = ["init", "M"];
    for (failing_put, put) in [
        (1, ""),
        (2, "i"),
        (8, "initial"),
        (9, "initial\n"),
        (18, "initial\n  a=FALSE"),
        (20, "initial\n  a=FALSE\n "),
        (35, "initial\n  a=FALSE\n  a=TRUE,b=FALSE"),
    ] {
        let given = Given {
            most: 1,
            failing_put,
            ..Given::of(&words, MODEL)
        };
        expect(&rt, rt.alloc(), given, 5, put, "write failed\n")?;
    }
    let given = Given {
        most: 1,
        failing_put: 36,
        ..Given::of(&words, MODEL)
    };
    expect(&rt, rt.alloc(), given, 0, REPORT, "")
}

#[test]
fn a_failing_error_stream_changes_no_status(rt: HostRuntime) -> Result<(), Fail> {
    let given = Given {
        most: 5,
        failing_line: 2,
        ..Given::of(&["init", "N"], MODEL)
    };
    expect(&rt, rt.alloc(), given, 4, "", "read ")
}
