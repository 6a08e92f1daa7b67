ghost use Rattle.std.specs.Prelude.{◌≡◌, ◌<◌, [], ◌∷◌, ◌++◌, Some, OnOk, OnErr};
ghost use Rattle.cov_io.specs.Outside.{Puts};
ghost use Rattle.cov_io.specs.MemSink.{PutsExactly};

use crate::bytes::{Bytes, NoMemory};
use crate::calls::Calls;
use crate::outside::{Failed, Sink};
use std::alloc::Global;
use std::marker::Model;

/// A sink in memory, some of whose calls fail. Contracts see the bytes that were put, the most that one
/// call takes, and the counts of calls and faults.
#[derive(Debug, Drop)]
pub struct MemSink {
    wrote: Bytes,
    most: usize,
    calls: Calls,
}

impl Model for MemSink {
    ghost use Rattle.std.specs.Prelude.{◌<◌};
    ghost use Rattle.cov_io.specs.MemSink.{HeldBytes};

    ghost Value = { HeldBytes };

    ghost view = { λ s. record {
      wrote = s.wrote;
      most = s.most;
      calls = s.calls.made;
      failing = s.calls.failing.items;
      faults = s.calls.faults;
    } };

    ghost invariant = { λ s. 0 < s.most };
}

impl MemSink {
    /// A sink of which one call takes at most `most` bytes. It takes no memory.
    pub fn new(alloc: Global, most: usize) -> MemSink
        requires { 0 < most }
        ensures { result ≡ record { wrote = []; most = most; calls = 0; failing = []; faults = 0 } }
    {
        MemSink {
            wrote: Bytes::new(alloc),
            most,
            calls: Calls::new(alloc),
        }
    }

    /// All bytes that were put.
    pub fn bytes(&self) -> &[u8]
        ensures { result.now ≡ self.now.wrote }
    {
        self.wrote.as_slice()
    }

    /// Lets one more call of `put` fail, by its number from 1.
    pub fn fail_at(&mut self, call: u64) -> Result<(), NoMemory>
        ensures ok { OnOk result (self.new ≡ record self.old { failing = self.old.failing ++ call ∷ [] }) }
        ensures err { OnErr result (self.new ≡ self.old) }
    {
        self.calls.fail_at(call)
    }
}

impl Sink for MemSink {
    ghost wrote = { λ s. Some s.wrote };

    ghost faults = { λ s. s.faults };

    /// It answers Failed also where it finds no memory for its bytes.
    fn put(&mut self, piece: &[u8]) -> Result<usize, Failed>
        ensures puts { Puts (Some self.old.wrote) (Some self.new.wrote) piece.now self.old.faults self.new.faults result }
        ensures exactly { PutsExactly self.old self.new piece.now result }
    {
        if self.calls.fails() {
            self.calls.count_fault();
            return Err(Failed);
        }
        let n = self.most.min(piece.len());
        if self.wrote.extend_from_slice(&piece[..n]).is_err() {
            self.calls.count_fault();
            return Err(Failed);
        }
        Ok(n)
    }
}
