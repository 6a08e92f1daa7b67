ghost use Rattle.std.specs.Prelude.{◌≡◌, ◌+◌, ◌<◌, ◌^◌, ◌≤◌, ◌↔◌, [], length, IfOk, IfErr, IsTrue};
ghost use Rattle.cov_syntax.specs.Tokens.{line_len};
ghost use Rattle.cov_evid.specs.Cursors.{IsLast, IsNext, piece};
ghost use Rattle.cov_evid.specs.Faults.{fault_at};
ghost use Rattle.cov_evid.specs.declared.fault.EvidFaultKind.TheVariants as kind;

use crate::fault::{EvidFault, EvidFaultKind};
use std::marker;

/// The lines of a text that are left, and the number of the first of them.
#[derive(Drop)]
pub(crate) struct Lines<'a> {
    rest: &'a [u8],
    number: u32,
}

impl<'a> marker::Model for Lines<'a> {
    ghost use Rattle.std.specs.Prelude.{◌+◌, ◌<◌, ◌^◌, length};
    ghost use Rattle.cov_evid.specs.Cursors.{Cursor};

    ghost Value = { Cursor };

    ghost view = { λ l. record { rest = l.rest.now; number = l.number } };

    ghost invariant = { λ l. l.number + length l.rest.now < 2 ^ 32 };
}

impl<'a> Lines<'a> {
    /// All lines of a text, from 1.
    pub fn new(text: &'a [u8]) -> Lines<'a>
        requires { length text.now < 2 ^ 31 }
        ensures { result ≡ record { rest = text.now; number = 1 } }
    {
        Lines {
            rest: text,
            number: 1,
        }
    }

    /// Whether nothing is left.
    pub fn is_empty(&self) -> bool
        ensures { IsTrue result ↔ (self.now.rest ≡ []) }
    {
        self.rest.is_empty()
    }

    /// The number of the next line.
    pub fn number(&self) -> u32
        ensures { result ≡ self.now.number }
    {
        self.number
    }

    /// The bytes before the next LF or the end.
    pub fn piece(&self) -> &'a [u8]
        ensures { result.now ≡ piece self.now.rest }
    {
        &self.rest[..line_len(self.rest)]
    }

    /// Takes the next line, and gives it without its LF. A line without LF is cut.
    pub fn next(&mut self) -> Result<&'a [u8], EvidFault>
        ensures ok { IfOk result (λ line. IsNext self.old line.now self.new) }
        ensures err { IfErr result (λ fault. (fault ≡ fault_at kind.Cut self.old.number) × IsLast self.old) }
    {
        let rest = self.rest;
        let len = line_len(rest);
        if len == rest.len() {
            return Err(EvidFaultKind::Cut.at(self.number));
        }
        self.rest = &rest[len + 1..];
        self.number += 1;
        Ok(&rest[..len])
    }
}

/// The number of bytes before the next LF or the end.
fn line_len(text: &[u8]) -> usize
    ensures value { result ≡ line_len text.now }
    ensures within { result ≤ length text.now }
{
    text.iter().take_while(|b| **b != b'\n').count()
}
