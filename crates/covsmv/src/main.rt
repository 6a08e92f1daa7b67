//! The program: hands its words to `run`, with the real files and streams, and ends with the status.
#![tactic(auto)]

use cov_io::{RealFiles, RealSink};
use cov_space::Meter;
use cov_top::{Status, run};
use std::env;
use std::io::ErrorKind;
use std::process::ExitCode;

/// The words after the program's name, or the status where the system does not give them.
fn words(rt: &HostRuntime) -> Result<Vec<String>, Status> {
    match env::args(rt) {
        Ok(args) => match args.skip(1).collect(rt.alloc()) {
            Ok(words) => Ok(words),
            Err(_) => Err(Status::Memory),
        },
        Err(e) if e.kind() == ErrorKind::OutOfMemory => Err(Status::Memory),
        Err(_) => Err(Status::Words),
    }
}

fn main(rt: HostRuntime) -> ExitCode {
    let words = match words(&rt) {
        Ok(words) => words,
        Err(status) => return ExitCode::from(status.code()),
    };
    let mut files = RealFiles::new(&rt);
    let mut out = RealSink::new(rt.stdout());
    let mut err = RealSink::new(rt.stderr());
    let mut meter = Meter::new();
    let status = run(
        rt.alloc(),
        words.as_slice(),
        &mut files,
        &mut out,
        &mut err,
        &mut meter,
    );
    ExitCode::from(status.code())
}
