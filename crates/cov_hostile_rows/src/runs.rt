//! A run of `cover M q` or `check M` over files and sinks in memory, some calls of which fail.

use cov_io::{MemFiles, MemSink};
use cov_space::Meter;
use cov_top::{Status, run};
use std::alloc::Global;
use std::test::Fail;

/// A model whose variable is FALSE and TRUE in turn.
pub(crate) const TURNS: &[u8] = b"MODULE main
VAR q : boolean;
ASSIGN init(q) := FALSE; next(q) := !q;
SPEC AG (!q -> AX q)
";

/// The whole report of `cover` on it, of 95 bytes.
pub(crate) const REPORT: &[u8] = b"spec 1 passes: AG (!q -> AX q)
  signal q
    covered
      q=TRUE
    uncovered
      q=FALSE
";

/// Which call of each kind fails, from 1, or none.
#[derive(Clone, Copy)]
pub(crate) struct Failing {
    pub(crate) read: u64,
    pub(crate) put: u64,
    pub(crate) line: u64,
}

/// No call fails.
pub(crate) const NOWHERE: Failing = Failing {
    read: 0,
    put: 0,
    line: 0,
};

/// What is wanted of a run.
#[derive(Clone, Copy)]
pub(crate) struct Wanted<'a> {
    pub(crate) status: u8,
    pub(crate) out: &'a [u8],
    pub(crate) err: &'a [u8],
}

/// The words as strings.
pub(crate) fn strings(alloc: Global, words: &[&str]) -> Result<Vec<String>, Fail> {
    let mut strings = Vec::new(alloc);
    for word in words {
        strings.push(String::from_str(alloc, word)?)?;
    }
    Ok(strings)
}

/// Whether the run ends as is wanted, where each put takes one byte.
pub(crate) fn ends(
    alloc: Global,
    words: &[&str],
    failing: Failing,
    wanted: Wanted<'_>,
) -> Result<bool, Fail> {
    let words = strings(alloc, words)?;
    let mut files = MemFiles::new(alloc);
    files.add(b"M", TURNS)?;
    files.fail_at(failing.read)?;
    let mut out = MemSink::new(alloc, 1);
    out.fail_at(failing.put)?;
    let mut err = MemSink::new(alloc, 1);
    err.fail_at(failing.line)?;
    let mut meter = Meter::new();
    let status: Status = run(
        alloc,
        words.as_slice(),
        &mut files,
        &mut out,
        &mut err,
        &mut meter,
    );
    let same = out.bytes() == wanted.out && err.bytes() == wanted.err;
    Ok(same && status.code() == wanted.status)
}

/// How a run on a text ends: its status, and whether it put nothing.
#[derive(Clone, Copy, PartialEq, Eq, Debug)]
pub(crate) struct End {
    pub(crate) status: u8,
    pub(crate) nothing: bool,
}

/// How `check` of a text ends.
pub(crate) fn end_of_check(alloc: Global, text: &[u8]) -> Result<End, Fail> {
    let words = strings(alloc, &["check", "M"])?;
    let mut files = MemFiles::new(alloc);
    files.add(b"M", text)?;
    let mut out = MemSink::new(alloc, 1_000_000);
    let mut err = MemSink::new(alloc, 1_000_000);
    let mut meter = Meter::new();
    let status: Status = run(
        alloc,
        words.as_slice(),
        &mut files,
        &mut out,
        &mut err,
        &mut meter,
    );
    Ok(End {
        status: status.code(),
        nothing: out.bytes().is_empty(),
    })
}
