//! The files of a job, read whole before any of them is judged.

ghost use Rattle.std.specs.Prelude.{◌≡◌, ◌≤◌, ◌⊎◌, List, ℕ, None, Option, Some, IfOk, IfErr};
ghost use Rattle.cov_io.specs.Outside.{Rose, IsAbsent};
ghost use Rattle.cov_top.specs.Inputs.{IsEvidenceInput, IsInputOf, IsUnreadable};
ghost use Rattle.cov_top.specs.Run.{IsEvidenceFile, IsMissing};
ghost use Rattle.cov_words.specs.Words.{evidence_name};

use crate::refusal::{Refusal, refuse};
use crate::status::Status;
use crate::transfer::{ReadFault, read_file};
use cov_io::Files;
use cov_syntax::Text;
use cov_words::Job;
use std::alloc::Global;

/// What is read of a file: all of it, or no more than tells that it has more bytes than the limit.
#[derive(Drop)]
pub(crate) enum Input {
    Whole(Text),
    TooLong,
}

/// The most bytes of the text of evidence.
const MOST_EVIDENCE: u32 = 67_108_864;

/// Reads a file of at most so many bytes.
pub(crate) fn read_input<F: Files>(
    alloc: Global,
    files: &mut F,
    name: &[u8],
    limit: u32,
) -> Result<Input, Refusal>
    ensures ok { IfOk result (λ input. IsInputOf (F.told files.old) name.now limit input) }
    ensures err { IfErr result (λ r. IsUnreadable (Rose (F.faults files.old) (F.faults files.new) ⊎ IsAbsent (F.told files.old) name.now) r) }
    ensures told { F.told files.new ≡ F.told files.old }
    ensures later { F.faults files.old ≤ F.faults files.new }
{
    match read_file(alloc, files, name, limit) {
        Ok(text) => Ok(Input::Whole(text)),
        Err(ReadFault::TooLong) => Ok(Input::TooLong),
        Err(ReadFault::Failed) => Err(refuse(Status::Read)),
        Err(ReadFault::Memory) => Err(refuse(Status::Memory)),
    }
}

/// Reads the evidence of a job that has some.
pub(crate) fn evidence_input<F: Files>(
    alloc: Global,
    files: &mut F,
    job: &Job,
) -> Result<Option<Input>, Refusal>
    ensures ok { IfOk result (λ input. (bytes : Option (List ℕ)) × IsEvidenceFile (F.told files.old) job.now bytes × IsEvidenceInput input bytes) }
    ensures alone { result ≡ Ok None → evidence_name job.now ≡ None }
    ensures err { IfErr result (λ r. IsUnreadable (Rose (F.faults files.old) (F.faults files.new) ⊎ IsMissing (F.told files.old) (Some job.now)) r) }
    ensures told { F.told files.new ≡ F.told files.old }
    ensures later { F.faults files.old ≤ F.faults files.new }
{
    match job.evidence() {
        None => Ok(None),
        Some(name) => match read_input(alloc, files, name, MOST_EVIDENCE) {
            Ok(input) => Ok(Some(input)),
            Err(refusal) => Err(refusal),
        },
    }
}
