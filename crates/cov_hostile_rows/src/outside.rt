//! Files and sinks that fail at each of their calls in turn.

use crate::runs::{Failing, NOWHERE, REPORT, Wanted, ends};
use cov_syntax::Seq;
use std::test::Fail;

const COVER: [&str; 3] = ["cover", "M", "q"];

#[test]
fn each_put_may_fail(rt: HostRuntime) -> Result<(), Fail> {
    let alloc = rt.alloc();
    let mut front = Seq::new(alloc);
    let mut put = 1u64;
    for byte in REPORT {
        let wanted = Wanted {
            status: 5,
            out: front.as_slice(),
            err: b"write failed\n",
        };
        assert!(rt; ends(alloc, &COVER, Failing { put, ..NOWHERE }, wanted)?);
        front.push(*byte)?;
        put = put.wrapping_add(1);
    }
    let whole = Wanted {
        status: 0,
        out: REPORT,
        err: b"",
    };
    assert!(rt; ends(alloc, &COVER, Failing { put, ..NOWHERE }, whole)?);
    assert_eq!(rt; put, 96);
    Ok(())
}

#[test]
fn the_start_and_each_read_may_fail(rt: HostRuntime) -> Result<(), Fail> {
    let alloc = rt.alloc();
    let wanted = Wanted {
        status: 4,
        out: b"",
        err: b"read failed\n",
    };
    for read in [1, 2, 3] {
        assert!(rt; ends(alloc, &COVER, Failing { read, ..NOWHERE }, wanted)?);
    }
    let whole = Wanted {
        status: 0,
        out: REPORT,
        err: b"",
    };
    assert!(rt; ends(alloc, &COVER, Failing { read: 4, ..NOWHERE }, whole)?);
    Ok(())
}

#[test]
fn an_error_line_that_can_not_be_put_changes_no_status(rt: HostRuntime) -> Result<(), Fail> {
    let alloc = rt.alloc();
    let wanted = Wanted {
        status: 8,
        out: b"",
        err: b"",
    };
    let words = ["cover", "M", "z"];
    assert!(rt; ends(alloc, &words, Failing { line: 1, ..NOWHERE }, wanted)?);
    let cut = Wanted {
        err: b"asked: Unk",
        ..wanted
    };
    assert!(rt;
        ends(
            alloc,
            &words,
            Failing {
                line: 11,
                ..NOWHERE
            },
            cut
        )?
    );
    Ok(())
}
