//! A run over files and sinks in memory.

use cov_io::{MemFiles, MemSink};
use cov_space::Meter;
use cov_top::{Status, run};
use std::alloc::Global;
use std::process::Abort;
use std::test::Fail;

/// What a run is given: its words, the file `M`, and which of the calls of each kind fails, from 1.
#[derive(Clone, Copy)]
pub(crate) struct Given<'a> {
    pub(crate) words: &'a [&'a str],
    pub(crate) model: &'a str,
    pub(crate) most: usize,
    pub(crate) failing_read: u64,
    pub(crate) failing_put: u64,
    pub(crate) failing_line: u64,
}

impl<'a> Given<'a> {
    /// Words and a model, with nothing that fails.
    pub(crate) fn of(words: &'a [&'a str], model: &'a str) -> Given<'a> {
        Given {
            words,
            model,
            most: 1_000_000,
            failing_read: 0,
            failing_put: 0,
            failing_line: 0,
        }
    }
}

/// Runs, and compares the status, the report and the error line.
pub(crate) fn expect(
    rt: &impl Abort,
    alloc: Global,
    given: Given<'_>,
    status: u8,
    report: &str,
    line: &str,
) -> Result<(), Fail> {
    let mut words = Vec::new(alloc);
    for word in given.words {
        words.push(String::from_str(alloc, word)?)?;
    }
    let mut files = MemFiles::new(alloc);
    files.add(b"M", given.model.as_bytes())?;
    files.fail_at(given.failing_read)?;
    let mut out = MemSink::new(alloc, given.most.max(1));
    out.fail_at(given.failing_put)?;
    let mut err = MemSink::new(alloc, given.most.max(1));
    err.fail_at(given.failing_line)?;
    let mut meter = Meter::new();
    let found: Status = run(
        alloc,
        words.as_slice(),
        &mut files,
        &mut out,
        &mut err,
        &mut meter,
    );
    assert_eq!(rt; out.bytes(), report.as_bytes());
    assert_eq!(rt; err.bytes(), line.as_bytes());
    assert_eq!(rt; found.code(), status);
    Ok(())
}
