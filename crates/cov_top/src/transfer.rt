ghost use Rattle.std.specs.Prelude.{◌≡◌, ◌<◌, ◌≤◌, ◌⊎◌, Some, length, IfOk, OnOk, OnErr};
ghost use Rattle.cov_io.specs.Outside.{Rose, IsAbsent, IsFile, Gains};
ghost use Rattle.cov_top.specs.Transfer.{GainsPart, IsLonger};

use cov_io::{Failed, Files, Sink, StartFault};
use cov_syntax::{NoMemory, Seq, Text};
use std::alloc::Global;

/// Why a file is not read.
#[derive(Clone, Copy, Debug, PartialEq, Eq)]
pub(crate) enum ReadFault {
    Failed,
    TooLong,
    Memory,
}

impl From<NoMemory> for ReadFault {
    ghost use Rattle.cov_top.specs.declared.transfer.ReadFault.TheVariants.{Memory};

    ghost from_gives = { λ _ e. e ≡ Memory };

    fn from(_: NoMemory) -> ReadFault {
        ReadFault::Memory
    }
}

/// The most bytes that one turn takes.
const CHUNK: usize = 4096;

/// The bytes of a file, which are at most as many as the limit. No more than the limit and one byte
/// are taken.
pub(crate) fn read_file<F: Files>(
    alloc: Global,
    files: &mut F,
    name: &[u8],
    limit: u32,
) -> Result<Text, ReadFault>
    ensures bytes { IfOk result (λ bytes. IsFile (F.told files.old) name.now (Some bytes)) }
    ensures within { IfOk result (λ bytes. length bytes ≤ limit) }
    ensures too_long { result ≡ Err ReadFault.TooLong → IsLonger (F.told files.old) name.now limit }
    ensures failed { result ≡ Err ReadFault.Failed → Rose (F.faults files.old) (F.faults files.new) ⊎ IsAbsent (F.told files.old) name.now }
    ensures told { F.told files.new ≡ F.told files.old }
    ensures later { F.faults files.old ≤ F.faults files.new }
{
    match files.start(alloc, name) {
        Ok(()) => {}
        Err(StartFault::Failed) => return Err(ReadFault::Failed),
        Err(StartFault::Memory) => return Err(ReadFault::Memory),
    }
    let mut bytes = Seq::new(alloc);
    let mut chunk = [0u8; CHUNK];
    let most = limit as usize + 1;
    for _turn in 0..u64::from(limit) + 1 {
        let room = CHUNK.min(most - bytes.len());
        let Ok(n) = files.take(&mut chunk[..room]) else {
            return Err(ReadFault::Failed);
        };
        if n == 0 {
            return Ok(bytes);
        }
        bytes.extend_from_slice(&chunk[..n])?;
        if bytes.len() == most {
            return Err(ReadFault::TooLong);
        }
    }
    unreachable!()
}

/// Puts the whole text. Each call is given all that is left of it.
pub(crate) fn put_all<S: Sink>(sink: &mut S, text: &[u8]) -> Result<(), Failed>
    ensures ok { OnOk result (Gains (S.wrote sink.old) (S.wrote sink.new) text.now) }
    ensures err { OnErr result (GainsPart (S.wrote sink.old) (S.wrote sink.new) text.now) }
    ensures failed { OnErr result (Rose (S.faults sink.old) (S.faults sink.new)) }
    ensures later { S.faults sink.old ≤ S.faults sink.new }
{
    let mut at = 0;
    while at < text.len() {
        at += sink.put(&text[at..])?;
    }
    Ok(())
}
