ghost use Rattle.std.specs.Prelude.{◌≡◌, ◌≤◌, IfSome, IsTrue, ◌↔◌};

use crate::table::entry;

/// A reserved word of the SMV language. The left-out words, from `IVAR` on, stand in no text that the tool reads.
#[derive(Clone, Copy, Debug, PartialEq, Eq)]
pub enum Word {
    Module = 0,
    Var = 1,
    Assign = 2,
    Trans = 3,
    /// `INIT`
    Init = 4,
    Invar = 5,
    Define = 6,
    Fairness = 7,
    Justice = 8,
    Spec = 9,
    CtlSpec = 10,
    Boolean = 11,
    /// `init`
    InitOf = 12,
    /// `next`
    NextOf = 13,
    Case = 14,
    Esac = 15,
    Union = 16,
    In = 17,
    Mod = 18,
    Xor = 19,
    True = 20,
    False = 21,
    Ex = 22,
    Ef = 23,
    Eg = 24,
    Ax = 25,
    Af = 26,
    Ag = 27,
    A = 28,
    E = 29,
    U = 30,
    Ivar = 100,
    Process = 101,
    Compassion = 102,
    LtlSpec = 103,
    InvarSpec = 104,
    Compute = 105,
    FrozenVar = 106,
    Constants = 107,
    Isa = 108,
    /// `self`
    Itself = 109,
    Array = 110,
    /// `word`
    BitVector = 111,
    Real = 112,
    Xnor = 113,
    Bu = 114,
    Ebf = 115,
    Abf = 116,
    Ebg = 117,
    Abg = 118,
}

/// The number of the first left-out word.
const FIRST_LEFT_OUT: u8 = 100;

/// The used words, by their numbers.
const USED: [Word; 31] = [
    Word::Module,
    Word::Var,
    Word::Assign,
    Word::Trans,
    Word::Init,
    Word::Invar,
    Word::Define,
    Word::Fairness,
    Word::Justice,
    Word::Spec,
    Word::CtlSpec,
    Word::Boolean,
    Word::InitOf,
    Word::NextOf,
    Word::Case,
    Word::Esac,
    Word::Union,
    Word::In,
    Word::Mod,
    Word::Xor,
    Word::True,
    Word::False,
    Word::Ex,
    Word::Ef,
    Word::Eg,
    Word::Ax,
    Word::Af,
    Word::Ag,
    Word::A,
    Word::E,
    Word::U,
];

/// The left-out words, by their numbers from that of the first.
const LEFT_OUT: [Word; 19] = [
    Word::Ivar,
    Word::Process,
    Word::Compassion,
    Word::LtlSpec,
    Word::InvarSpec,
    Word::Compute,
    Word::FrozenVar,
    Word::Constants,
    Word::Isa,
    Word::Itself,
    Word::Array,
    Word::BitVector,
    Word::Real,
    Word::Xnor,
    Word::Bu,
    Word::Ebf,
    Word::Abf,
    Word::Ebg,
    Word::Abg,
];

impl Word {
    ghost use Rattle.cov_syntax.specs.declared.words.Word.{Word};
    ghost use Rattle.cov_syntax.specs.Words.{word_number, word_spelling, word_numbered};

    /// The number of the word in tokens: used words from 0, left-out words from 100.
    pub fn number(self) -> u8
        ensures { result ≡ word_number self }
    {
        self as u8
    }

    /// The word with a number, if there is one.
    pub fn from_number(n: u8) -> Option<Word>
        ensures value { result ≡ word_numbered n }
        ensures number { IfSome result (λ w. word_number w ≡ n) }
        ensures only { (w : Word) → word_number w ≡ n → result ≡ Some w }
    {
        if n < FIRST_LEFT_OUT {
            entry(&USED, n)
        } else {
            entry(&LEFT_OUT, n - FIRST_LEFT_OUT)
        }
    }

    /// The word as it is written.
    pub fn spelling(self) -> &'static str
        ensures { result.now ≡ word_spelling self }
    {
        match self {
            Word::Module => "MODULE",
            Word::Var => "VAR",
            Word::Assign => "ASSIGN",
            Word::Trans => "TRANS",
            Word::Init => "INIT",
            Word::Invar => "INVAR",
            Word::Define => "DEFINE",
            Word::Fairness => "FAIRNESS",
            Word::Justice => "JUSTICE",
            Word::Spec => "SPEC",
            Word::CtlSpec => "CTLSPEC",
            Word::Boolean => "boolean",
            Word::InitOf => "init",
            Word::NextOf => "next",
            Word::Case => "case",
            Word::Esac => "esac",
            Word::Union => "union",
            Word::In => "in",
            Word::Mod => "mod",
            Word::Xor => "xor",
            Word::True => "TRUE",
            Word::False => "FALSE",
            Word::Ex => "EX",
            Word::Ef => "EF",
            Word::Eg => "EG",
            Word::Ax => "AX",
            Word::Af => "AF",
            Word::Ag => "AG",
            Word::A => "A",
            Word::E => "E",
            Word::U => "U",
            Word::Ivar => "IVAR",
            Word::Process => "process",
            Word::Compassion => "COMPASSION",
            Word::LtlSpec => "LTLSPEC",
            Word::InvarSpec => "INVARSPEC",
            Word::Compute => "COMPUTE",
            Word::FrozenVar => "FROZENVAR",
            Word::Constants => "CONSTANTS",
            Word::Isa => "ISA",
            Word::Itself => "self",
            Word::Array => "array",
            Word::BitVector => "word",
            Word::Real => "real",
            Word::Xnor => "xnor",
            Word::Bu => "BU",
            Word::Ebf => "EBF",
            Word::Abf => "ABF",
            Word::Ebg => "EBG",
            Word::Abg => "ABG",
        }
    }

    pub fn is_left_out(self) -> bool
        ensures { IsTrue result ↔ (FIRST_LEFT_OUT ≤ word_number self) }
    {
        FIRST_LEFT_OUT <= self.number()
    }
}
