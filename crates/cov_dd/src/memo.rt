ghost use Rattle.std.specs.Prelude.{◌≡◌, [], ◌∷◌, ◌++◌, Contains, IfSome, IfNone, OnOk, OnErr};
ghost use Rattle.cov_dd.specs.declared.node.Ref.{Ref};
ghost use Rattle.cov_dd.specs.declared.questions.Question.{Question};
ghost use Rattle.cov_dd.specs.Memo.{HasKey};

use crate::fault::NoMemory;
use crate::node::Ref;
use crate::questions::Question;
use indexmap::IndexMap;
use std::alloc::Global;
use std::marker::Model;

/// With more answers than this the memo is emptied before the next operation.
const MOST_ANSWERS: usize = 1 << 20;

/// The answers that were given, each with its question.
#[derive(Drop)]
pub struct Memo {
    answers: IndexMap<Question, Ref>,
}

impl Model for Memo {
    ghost use Rattle.std.specs.Prelude.{List};
    ghost use Rattle.cov_dd.specs.declared.node.Ref.{Ref};
    ghost use Rattle.cov_dd.specs.declared.questions.Question.{Question};

    ghost Value = { List (Question × Ref) };

    ghost view = { λ m. m.answers.entries };
}

impl Memo {
    /// It takes no memory.
    pub fn new(alloc: Global) -> Memo
        ensures { result ≡ [] }
    {
        Memo {
            answers: IndexMap::new(alloc),
        }
    }

    pub fn get(&self, asked: Question) -> Option<Ref>
        ensures found { IfSome result (λ r. Contains self.now (asked, r)) }
        ensures none { IfNone result (HasKey self.now asked → ⊥) }
    {
        self.answers.get(&asked).copied()
    }

    pub fn insert(&mut self, asked: Question, answer: Ref) -> Result<(), NoMemory>
        requires { HasKey self.old asked → ⊥ }
        ensures ok { OnOk result (self.new ≡ self.old ++ (asked, answer) ∷ []) }
        ensures err { OnErr result (self.new ≡ self.old) }
    {
        match self.answers.insert(asked, answer) {
            Ok(_) => Ok(()),
            Err(_) => Err(NoMemory),
        }
    }

    pub fn clear(&mut self)
        ensures { self.new ≡ [] }
    {
        self.answers.clear();
    }

    /// Empties the memo where it has become large.
    pub fn bound(&mut self)
        ensures { (q : Question) (r : Ref) → Contains self.new (q, r) → Contains self.old (q, r) }
    {
        if self.answers.len() > MOST_ANSWERS {
            self.clear();
        }
    }
}
