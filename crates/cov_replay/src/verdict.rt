/// The judge's answer on evidence: the first part of valid evidence that fails, in this order, or that all hold. States are
/// numbered from 1 over stem and turn, FAIRNESS expressions from 1.
#[derive(Clone, Copy, Debug, PartialEq, Eq)]
pub enum Verdict {
    /// All parts hold.
    Accept,
    /// The number names no specification.
    NoSuchSpec,
    /// The number names no occurrence of the specification.
    NoSuchOccurrence,
    /// One lasso does not tell that the claimed formula is false.
    NotLinear,
    /// This state is none of the model.
    NotState(u32),
    /// The first state is not initial.
    NotInitial,
    /// No step leads from this state to the next one.
    BadStep(u32),
    /// No step leads from the last state to the first of the turn.
    NotClosed,
    /// This FAIRNESS expression is true at no state of the turn.
    Unfair(u32),
    /// The mutant's state is none of the lasso.
    NotAt,
    /// The lasso does not refute the claimed formula.
    NotRefuted,
}
