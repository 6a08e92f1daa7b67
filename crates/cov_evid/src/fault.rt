ghost use Rattle.std.specs.Prelude.{◌≡◌, ◌≤◌, length, slice_get};
ghost use Rattle.cov_evid.specs.Faults.{code_of, kind_name, kind_numbered, name_of};

use cov_syntax::NoMemory;

/// What is wrong with the text of evidence. The names are those that error lines print.
#[derive(Clone, Copy, Debug, PartialEq, Eq)]
pub enum EvidFaultKind {
    /// The first line is another one.
    Header,
    /// A line that may not stand there.
    Line,
    /// A name that no signal of the model has.
    UnknownName,
    /// A value that its variable does not have.
    BadValue,
    /// The text ends before its last line does.
    Cut,
    /// Bytes behind the last line.
    Trailing,
    /// Too many bytes or states.
    TooLong,
}

/// The faults in the order of their numbers.
const KINDS: [EvidFaultKind; 7] = [
    EvidFaultKind::Header,
    EvidFaultKind::Line,
    EvidFaultKind::UnknownName,
    EvidFaultKind::BadValue,
    EvidFaultKind::Cut,
    EvidFaultKind::Trailing,
    EvidFaultKind::TooLong,
];

impl EvidFaultKind {
    /// The number of the fault, from 1 in the order above.
    pub fn code(self) -> u8
        ensures { result ≡ code_of self }
    {
        match self {
            EvidFaultKind::Header => 1,
            EvidFaultKind::Line => 2,
            EvidFaultKind::UnknownName => 3,
            EvidFaultKind::BadValue => 4,
            EvidFaultKind::Cut => 5,
            EvidFaultKind::Trailing => 6,
            EvidFaultKind::TooLong => 7,
        }
    }

    /// The name in error lines, in ASCII.
    pub fn name(self) -> &'static str
        ensures name { result.now ≡ kind_name self }
        ensures short { length result.now ≤ 16 }
    {
        match self {
            EvidFaultKind::Header => "Header",
            EvidFaultKind::Line => "Line",
            EvidFaultKind::UnknownName => "UnknownName",
            EvidFaultKind::BadValue => "BadValue",
            EvidFaultKind::Cut => "Cut",
            EvidFaultKind::Trailing => "Trailing",
            EvidFaultKind::TooLong => "TooLong",
        }
    }

    /// The fault of a number, if there is one.
    pub fn from_code(code: u8) -> Option<EvidFaultKind>
        ensures { result ≡ kind_numbered code }
    {
        if code == 0 {
            None
        } else {
            entry(&KINDS, code - 1)
        }
    }

    /// This fault at a line of the text.
    pub fn at(self, line: u32) -> EvidFault
        ensures { result ≡ record { code = code_of self; line = line } }
    {
        EvidFault {
            code: self.code(),
            line,
        }
    }
}

/// A fault of evidence: the number of an `EvidFaultKind`, and the line that has it, from 1.
#[derive(Clone, Copy, Debug, PartialEq, Eq)]
pub struct EvidFault {
    pub code: u8,
    pub line: u32,
}

impl EvidFault {
    /// The name in error lines, in ASCII, and nothing for a number that is no fault's.
    pub fn name(self) -> &'static str
        ensures name { result.now ≡ name_of self.code }
        ensures short { length result.now ≤ 16 }
    {
        match EvidFaultKind::from_code(self.code) {
            Some(kind) => kind.name(),
            None => "",
        }
    }
}

/// Why a text gives no evidence.
#[derive(Clone, Copy, Debug, PartialEq, Eq)]
pub enum EvidRefused {
    Fault(EvidFault),
    Memory,
}

impl From<NoMemory> for EvidRefused {
    ghost use Rattle.cov_evid.specs.declared.fault.EvidRefused.TheVariants.{Memory};

    ghost from_gives = { λ _ e. e ≡ Memory };

    fn from(_: NoMemory) -> EvidRefused {
        EvidRefused::Memory
    }
}

impl From<EvidFault> for EvidRefused {
    ghost use Rattle.cov_evid.specs.declared.fault.EvidRefused.TheVariants.{Fault};

    ghost from_gives = { λ fault e. e ≡ Fault fault };

    fn from(fault: EvidFault) -> EvidRefused {
        EvidRefused::Fault(fault)
    }
}

/// The entry at a place, from 0, if there is one.
fn entry<T: Copy>(table: &[T], at: u8) -> Option<T>
    ensures { result ≡ slice_get table.now at }
{
    table.get(at as usize).copied()
}
