ghost use Rattle.std.specs.Prelude.{◌≡◌, ◌<◌, IfSome, IfNone};
ghost use Rattle.cov_dd.specs.Nodes.{level_of, IsInner, IsLive, IsTable};
ghost use Rattle.cov_dd.specs.Operations.{restricted};
ghost use Rattle.cov_dd.specs.Questions.{wanted, negation_of, restriction_of, IsAsked, IsOpen, IsHalf, IsSettled, Halved};

use crate::node::Ref;
use crate::operations::{Op, shortcut};
use crate::store::Store;

/// What is asked of a table of diagrams.
#[derive(Clone, Copy, PartialEq, Eq, Hash, Debug)]
pub enum Question {
    /// An operation on two diagrams.
    Apply(Op, Ref, Ref),
    /// The negation of a diagram.
    Negate(Ref),
    /// A diagram with the bit of a level fixed.
    Restrict(Ref, u16, bool),
}

/// A question where the bit of its first level is clear, and where it is set.
#[derive(Clone, Copy, Debug)]
pub struct Halves {
    pub level: u16,
    pub low: Question,
    pub high: Question,
}

/// The answer to a question for which no bit is to be tested.
pub fn settled(store: &Store, asked: Question) -> Option<Ref>
    requires { IsAsked store.now asked }
    ensures known { IfSome result (IsSettled store.now (wanted asked)) }
    ensures open { IfNone result (IsOpen store.now asked) }
    ensures table { IsTable store.now.levels store.now.nodes }
{
    let _held = store.held();
    match asked {
        Question::Apply(op, f, g) => shortcut(op, f, g),
        Question::Negate(f) => opposite(store, f),
        Question::Restrict(f, level, bit) => cofactor(store, f, level, bit),
    }
}

/// The negation of a constant.
fn opposite(store: &Store, f: Ref) -> Option<Ref>
    ensures known { IfSome result (IsSettled store.now (negation_of f)) }
    ensures open { IfNone result (IsInner f) }
{
    let _levels = store.levels();
    match f {
        Ref::Constant(value) => Some(Ref::Constant(!value)),
        Ref::Inner(_) => None,
    }
}

/// A diagram with the bit of a level fixed that is not below its own.
fn cofactor(store: &Store, f: Ref, level: u16, bit: bool) -> Option<Ref>
    requires f { IsLive store.now.nodes f }
    requires level { level < store.now.levels }
    ensures known { IfSome result (IsSettled store.now (restriction_of level bit f)) }
    ensures open { IfNone result (level_of store.now.levels store.now.nodes f < level) }
{
    let top = store.level(f);
    if level < top {
        return Some(f);
    }
    if top < level {
        return None;
    }
    let (low, high) = store.split(f, top);
    Some(if bit { high } else { low })
}

/// The question at both values of the bit of its first level.
pub fn halve(store: &Store, asked: Question) -> Halves
    requires asked { IsAsked store.now asked }
    requires open { IsOpen store.now asked }
    ensures level { result.level < store.now.levels }
    ensures halved { Halved store.now result.level (wanted asked) (wanted result.low) (wanted result.high) }
    ensures low { IsHalf store.now asked result.low }
    ensures high { IsHalf store.now asked result.high }
{
    match asked {
        Question::Apply(op, f, g) => {
            let level = store.level(f).min(store.level(g));
            let (f_low, f_high) = store.split(f, level);
            let (g_low, g_high) = store.split(g, level);
            Halves {
                level,
                low: Question::Apply(op, f_low, g_low),
                high: Question::Apply(op, f_high, g_high),
            }
        }
        Question::Negate(f) => {
            let level = store.level(f);
            let (low, high) = store.split(f, level);
            Halves {
                level,
                low: Question::Negate(low),
                high: Question::Negate(high),
            }
        }
        Question::Restrict(f, fixed, bit) => {
            let level = store.level(f);
            let (low, high) = store.split(f, level);
            Halves {
                level,
                low: Question::Restrict(low, fixed, bit),
                high: Question::Restrict(high, fixed, bit),
            }
        }
    }
}
