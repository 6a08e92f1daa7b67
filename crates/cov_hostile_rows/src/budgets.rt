//! Each budget of nodes, up to one that is enough.

use crate::runs::{NOWHERE, REPORT, TURNS, Wanted, ends, strings};
use cov_io::{MemFiles, MemSink};
use cov_space::Meter;
use cov_top::{Status, run};
use itoa::Buffer;
use std::alloc::Global;
use std::test::Fail;

/// Whether `cover` with the budget gives the whole report, or else nothing, with all nodes held.
fn is_whole_or_short(alloc: Global, budget: u32) -> Result<bool, Fail> {
    let mut buffer = Buffer::new();
    let words = strings(
        alloc,
        &["cover", "M", "q", "--nodes", buffer.format(budget)],
    )?;
    let mut files = MemFiles::new(alloc);
    files.add(b"M", TURNS)?;
    let mut out = MemSink::new(alloc, 1_000_000);
    let mut err = MemSink::new(alloc, 1_000_000);
    let mut meter = Meter::new();
    let status: Status = run(
        alloc,
        words.as_slice(),
        &mut files,
        &mut out,
        &mut err,
        &mut meter,
    );
    match status {
        Status::Nodes(full) => {
            let told = full.held == budget && full.budget == budget && full.roots <= 166;
            Ok(told && meter.count() == 1 && meter.levels() == 3 && out.bytes().is_empty())
        }
        _ => Ok(status.code() == 0 && meter.count() == 0 && out.bytes() == REPORT),
    }
}

/// The number of sets of this model is at most 166, so that 167 * 2^3 nodes are enough; 64 serve.
#[test]
fn each_budget_gives_the_report_or_is_short(rt: HostRuntime) -> Result<(), Fail> {
    let alloc = rt.alloc();
    for budget in 1..1336 {
        assert!(rt; is_whole_or_short(alloc, budget)?);
    }
    Ok(())
}

/// The whole report is there with few nodes, and with those that are enough.
#[test]
fn few_nodes_serve(rt: HostRuntime) -> Result<(), Fail> {
    let alloc = rt.alloc();
    for budget in [64, 1336] {
        assert!(rt; is_whole(alloc, budget)?);
    }
    Ok(())
}

/// Whether `cover` with the budget gives the whole report.
fn is_whole(alloc: Global, budget: u32) -> Result<bool, Fail> {
    let mut buffer = Buffer::new();
    let words = ["cover", "M", "q", "--nodes", buffer.format(budget)];
    let wanted = Wanted {
        status: 0,
        out: REPORT,
        err: b"",
    };
    ends(alloc, &words, NOWHERE, wanted)
}
