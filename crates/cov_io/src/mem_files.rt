ghost use Rattle.std.specs.Prelude.{◌≡◌, ◌+◌, ◌<◌, ◌≤◌, min, [], ◌∷◌, ◌++◌, length, take, drop, slice_get, Some, None, is_ok, true, false, IfOk, OnOk, OnErr, IfSome, IfNone};
ghost use Rattle.std.specs.Str.{bytes_eq};
ghost use Rattle.cov_io.specs.Outside.{file_of, Starts, Takes, TakesCount};
ghost use Rattle.cov_io.specs.MemFiles.{table, bytes_of, StartsExactly, TakesExactly};

use crate::bytes::{Bytes, NoMemory};
use crate::calls::Calls;
use crate::outside::{Failed, Files, StartFault};
use std::alloc::Global;
use std::marker::Model;

#[derive(Debug, Drop)]
struct MemFile {
    name: Bytes,
    bytes: Bytes,
}

/// Which file is read, and how many of its bytes were taken.
#[derive(Clone, Copy, Debug)]
struct Reading {
    file: usize,
    from: usize,
}

/// Files in memory, some of whose calls fail. Contracts see names with bytes, what is left of the file
/// that is read, and the counts of calls and faults.
#[derive(Debug, Drop)]
pub struct MemFiles {
    alloc: Global,
    files: Vec<MemFile>,
    reading: Option<Reading>,
    calls: Calls,
}

impl Model for MemFiles {
    ghost use Rattle.std.specs.Prelude.{is_some};
    ghost use Rattle.cov_io.specs.MemFiles.{HeldFiles, table, left_of, IsReading};

    ghost Value = { HeldFiles };

    ghost view = { λ f. record {
      files = table f.files.items;
      left = left_of f.files.items f.reading;
      begun = is_some f.reading;
      calls = f.calls.made;
      failing = f.calls.failing.items;
      faults = f.calls.faults;
    } };

    ghost invariant = { λ f. IsReading f.files.items f.reading };
}

impl MemFiles {
    /// No file is held. It takes no memory.
    pub fn new(alloc: Global) -> MemFiles
        ensures { result ≡ record { files = []; left = []; begun = false; calls = 0; failing = []; faults = 0 } }
    {
        MemFiles {
            alloc,
            files: Vec::new(alloc),
            reading: None,
            calls: Calls::new(alloc),
        }
    }

    /// Holds one more file, by a name that is not held yet.
    pub fn add(&mut self, name: &[u8], bytes: &[u8]) -> Result<(), NoMemory>
        requires { file_of self.old.files name.now ≡ None }
        ensures ok { OnOk result (self.new ≡ record self.old { files = self.old.files ++ (name.now, bytes.now) ∷ [] }) }
        ensures err { OnErr result (self.new ≡ self.old) }
    {
        let file = MemFile {
            name: Bytes::copied(self.alloc, name)?,
            bytes: Bytes::copied(self.alloc, bytes)?,
        };
        self.files.push(file)?;
        Ok(())
    }

    /// Lets one more call of `start` or `take` fail, by its number from 1.
    pub fn fail_at(&mut self, call: u64) -> Result<(), NoMemory>
        ensures ok { OnOk result (self.new ≡ record self.old { failing = self.old.failing ++ call ∷ [] }) }
        ensures err { OnErr result (self.new ≡ self.old) }
    {
        self.calls.fail_at(call)
    }
}

impl Files for MemFiles {
    ghost told = { λ f. Some f.files };

    ghost left = { λ f. Some f.left };

    ghost begun = { λ f. f.begun };

    ghost faults = { λ f. f.faults };

    fn start(&mut self, _alloc: Global, name: &[u8]) -> Result<(), StartFault>
        ensures begun { self.new.begun ≡ is_ok result }
        ensures told { Some self.new.files ≡ Some self.old.files }
        ensures starts { Starts (Some self.old.files) name.now (Some self.new.left) self.old.faults self.new.faults result }
        ensures exactly { StartsExactly self.old self.new name.now result }
    {
        self.reading = None;
        let Some(file) = place_of(self.files.as_slice(), name) else {
            return Err(StartFault::Failed);
        };
        if self.calls.fails() {
            self.calls.count_fault();
            return Err(StartFault::Failed);
        }
        self.reading = Some(Reading { file, from: 0 });
        Ok(())
    }

    fn take(&mut self, into: &mut [u8]) -> Result<usize, Failed>
        requires { self.old.begun ≡ true }
        ensures begun { self.new.begun ≡ true }
        ensures told { Some self.new.files ≡ Some self.old.files }
        ensures takes { Takes (Some self.old.left) (Some self.new.left) into.new self.old.faults self.new.faults result }
        ensures exactly { TakesExactly self.old self.new (length into.old) result }
    {
        if self.calls.fails() {
            self.calls.count_fault();
            return Err(Failed);
        }
        let Some(Reading { file, from }) = self.reading else {
            unreachable!();
        };
        let n = take_from(bytes_at(self.files.as_slice(), file), from, into);
        self.reading = Some(Reading {
            file,
            from: from + n,
        });
        Ok(n)
    }
}

fn same_text(a: &[u8], b: &[u8]) -> bool
    ensures { result ≡ bytes_eq a.now b.now }
{
    a == b
}

/// The place of the first file of that name.
fn place_of(files: &[MemFile], name: &[u8]) -> Option<usize>
    ensures there { IfSome result (λ at. at < length files.now) }
    ensures found { IfSome result (λ at. file_of (table files.now) name.now ≡ Some (bytes_of (slice_get files.now at))) }
    ensures none { IfNone result (file_of (table files.now) name.now ≡ None) }
{
    for (at, file) in files.iter().enumerate() {
        if same_text(file.name.as_slice(), name) {
            return Some(at);
        }
    }
    None
}

fn bytes_at(files: &[MemFile], at: usize) -> &[u8]
    requires { at < length files.now }
    ensures { result.now ≡ bytes_of (slice_get files.now at) }
{
    files[at].bytes.as_slice()
}

/// Takes as many bytes as there are from a place on, and as there is room for.
fn take_from(bytes: &[u8], from: usize, into: &mut [u8]) -> usize
    requires { from ≤ length bytes.now }
    ensures count { result ≡ min (length (drop from bytes.now)) (length into.old) }
    ensures within { from + result ≤ length bytes.now }
    ensures takes { TakesCount (drop from bytes.now) (Some (drop (from + result) bytes.now)) into.new result }
{
    let rest = &bytes[from..];
    let n = rest.len().min(into.len());
    into[..n].copy_from_slice(&rest[..n]);
    n
}
