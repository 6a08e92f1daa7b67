ghost use Rattle.std.specs.Prelude.{◌≡◌, ◌≤◌, length};
ghost use Rattle.cov_syntax.specs.Faults.{code_of, kind_name, kind_numbered, name_of};

use crate::error::NoMemory;
use crate::table::entry;
use crate::tree::Span;

/// What is wrong with a model's text. The names are those that error lines print.
#[derive(Clone, Copy, Debug, PartialEq, Eq)]
pub enum FaultKind {
    BadByte,
    Syntax,
    NoMain,
    UnknownModule,
    RecursiveModule,
    WrongArguments,
    DuplicateName,
    UnknownName,
    NameClash,
    BadType,
    Kind,
    SetPlace,
    CaseNotClosed,
    DivisorMayBeZero,
    RangeTooWide,
    DoubleAssign,
    Circular,
    NextPlace,
    TemporalPlace,
    LeftOut,
    TooManyBits,
    TooDeep,
    TooLarge,
    FileTooLong,
}

/// The faults in the order of their numbers.
const KINDS: [FaultKind; 24] = [
    FaultKind::BadByte,
    FaultKind::Syntax,
    FaultKind::NoMain,
    FaultKind::UnknownModule,
    FaultKind::RecursiveModule,
    FaultKind::WrongArguments,
    FaultKind::DuplicateName,
    FaultKind::UnknownName,
    FaultKind::NameClash,
    FaultKind::BadType,
    FaultKind::Kind,
    FaultKind::SetPlace,
    FaultKind::CaseNotClosed,
    FaultKind::DivisorMayBeZero,
    FaultKind::RangeTooWide,
    FaultKind::DoubleAssign,
    FaultKind::Circular,
    FaultKind::NextPlace,
    FaultKind::TemporalPlace,
    FaultKind::LeftOut,
    FaultKind::TooManyBits,
    FaultKind::TooDeep,
    FaultKind::TooLarge,
    FaultKind::FileTooLong,
];

impl FaultKind {
    /// The number of the fault, from 1 in the order above.
    pub fn code(self) -> u8
        ensures { result ≡ code_of self }
    {
        match self {
            FaultKind::BadByte => 1,
            FaultKind::Syntax => 2,
            FaultKind::NoMain => 3,
            FaultKind::UnknownModule => 4,
            FaultKind::RecursiveModule => 5,
            FaultKind::WrongArguments => 6,
            FaultKind::DuplicateName => 7,
            FaultKind::UnknownName => 8,
            FaultKind::NameClash => 9,
            FaultKind::BadType => 10,
            FaultKind::Kind => 11,
            FaultKind::SetPlace => 12,
            FaultKind::CaseNotClosed => 13,
            FaultKind::DivisorMayBeZero => 14,
            FaultKind::RangeTooWide => 15,
            FaultKind::DoubleAssign => 16,
            FaultKind::Circular => 17,
            FaultKind::NextPlace => 18,
            FaultKind::TemporalPlace => 19,
            FaultKind::LeftOut => 20,
            FaultKind::TooManyBits => 21,
            FaultKind::TooDeep => 22,
            FaultKind::TooLarge => 23,
            FaultKind::FileTooLong => 24,
        }
    }

    /// The name in error lines, in ASCII.
    pub fn name(self) -> &'static str
        ensures name { result.now ≡ kind_name self }
        ensures short { length result.now ≤ 16 }
    {
        match self {
            FaultKind::BadByte => "BadByte",
            FaultKind::Syntax => "Syntax",
            FaultKind::NoMain => "NoMain",
            FaultKind::UnknownModule => "UnknownModule",
            FaultKind::RecursiveModule => "RecursiveModule",
            FaultKind::WrongArguments => "WrongArguments",
            FaultKind::DuplicateName => "DuplicateName",
            FaultKind::UnknownName => "UnknownName",
            FaultKind::NameClash => "NameClash",
            FaultKind::BadType => "BadType",
            FaultKind::Kind => "Kind",
            FaultKind::SetPlace => "SetPlace",
            FaultKind::CaseNotClosed => "CaseNotClosed",
            FaultKind::DivisorMayBeZero => "DivisorMayBeZero",
            FaultKind::RangeTooWide => "RangeTooWide",
            FaultKind::DoubleAssign => "DoubleAssign",
            FaultKind::Circular => "Circular",
            FaultKind::NextPlace => "NextPlace",
            FaultKind::TemporalPlace => "TemporalPlace",
            FaultKind::LeftOut => "LeftOut",
            FaultKind::TooManyBits => "TooManyBits",
            FaultKind::TooDeep => "TooDeep",
            FaultKind::TooLarge => "TooLarge",
            FaultKind::FileTooLong => "FileTooLong",
        }
    }

    /// The fault of a number, if there is one.
    pub fn from_code(code: u8) -> Option<FaultKind>
        ensures { result ≡ kind_numbered code }
    {
        if code == 0 {
            None
        } else {
            entry(&KINDS, code - 1)
        }
    }

    /// This fault at a place of the text.
    pub fn at(self, place: Span) -> ModelFault
        ensures { result ≡ record { code = code_of self; place = place } }
    {
        ModelFault {
            code: self.code(),
            place,
        }
    }
}

/// A fault of a model: the number of a `FaultKind`, and where it is in the text.
#[derive(Clone, Copy, Debug, PartialEq, Eq)]
pub struct ModelFault {
    pub code: u8,
    pub place: Span,
}

impl ModelFault {
    /// The name in error lines, in ASCII, and nothing for a number that is no fault's.
    pub fn name(self) -> &'static str
        ensures name { result.now ≡ name_of self.code }
        ensures short { length result.now ≤ 16 }
    {
        match FaultKind::from_code(self.code) {
            Some(kind) => kind.name(),
            None => "",
        }
    }
}

/// Why a text gives no model.
#[derive(Clone, Copy, Debug, PartialEq, Eq)]
pub enum Refused {
    Fault(ModelFault),
    Memory,
}

impl From<NoMemory> for Refused {
    ghost use Rattle.cov_syntax.specs.declared.fault.Refused.TheVariants.{Memory};

    ghost from_gives = { λ _ e. e ≡ Memory };

    fn from(_: NoMemory) -> Refused {
        Refused::Memory
    }
}
