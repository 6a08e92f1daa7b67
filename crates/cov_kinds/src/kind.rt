ghost use Rattle.std.specs.Prelude.{◌≡◌, ◌≤ℤ◌, IfOk, IsFalse};
ghost use Rattle.cov_model.specs.Kinds as kinds;
ghost use Rattle.cov_model.specs.Walk as walk;

use crate::asks::Asks;
use crate::ends::are_wide;
use crate::values::integers;
use cov_syntax::{NoMemory, Seq, Value};
use std::alloc::Global;

/// The most values that a kind may have.
pub(crate) const MOST_VALUES: usize = 1024;

/// The integers from one to another that is not below it.
#[derive(Clone, Copy)]
pub struct Interval {
    pub low: i32,
    pub high: i32,
    pub ghost ordered: { low ≤ℤ high },
}

/// The kind of an expression.
pub enum Kind {
    Boolean,
    Interval(Interval),
    Among(Seq<Value>),
}

/// Written out, so that a kind that goes out of scope gives a proof one goal and not three.
impl Drop for Kind {
    fn drop(self) {
        match self {
            Kind::Boolean => {}
            Kind::Interval(_) => {}
            Kind::Among(_values) => {}
        }
    }
}

impl Interval {
    /// Whether an end is outside the language's limits, or more than 1,024 integers lie between the ends.
    pub(crate) fn is_wide(&self) -> bool
        ensures { result ≡ walk.is_wide (kinds.interval self.now.low self.now.high) }
    {
        are_wide(i64::from(self.low), i64::from(self.high))
    }

    /// The number of its integers.
    fn count(&self) -> u32
        requires narrow { IsFalse (walk.is_wide (kinds.interval self.now.low self.now.high)) }
        ensures { result ≡ kinds.count self.now.low self.now.high }
    {
        (self.high - self.low + 1) as u32
    }
}

impl Kind {
    ghost use Rattle.cov_kinds.specs.Seen.{seen, asks_of};

    /// An equal kind.
    pub fn copy(&self, alloc: Global) -> Result<Kind, NoMemory>
        ensures { IfOk result (λ k. k ≡ self.now) }
    {
        match self {
            Kind::Boolean => Ok(Kind::Boolean),
            Kind::Interval(interval) => Ok(Kind::Interval(*interval)),
            Kind::Among(values) => Ok(Kind::Among(values.copy(alloc)?)),
        }
    }

    /// Whether it is the kind Boolean.
    pub fn is_boolean(&self) -> bool
        ensures { result ≡ kinds.is_boolean (seen self.now) }
    {
        matches!(self, Kind::Boolean)
    }

    /// Whether an expression of the kind may stand where a place asks this.
    pub fn fits(&self, asks: Asks) -> bool
        ensures { result ≡ walk.kind_fits (asks_of asks) (seen self.now) }
    {
        match asks {
            Asks::Truth => matches!(self, Kind::Boolean),
            Asks::Number => matches!(self, Kind::Interval(_)),
            Asks::NoTruth => !matches!(self, Kind::Boolean),
        }
    }

    /// Whether it has an integer outside the language's limits, or more than 1,024 values.
    pub fn is_wide(&self) -> bool
        ensures { result ≡ walk.is_wide (seen self.now) }
    {
        match self {
            Kind::Boolean => false,
            Kind::Interval(interval) => interval.is_wide(),
            Kind::Among(values) => values.len() > MOST_VALUES,
        }
    }

    /// The interval, and only 0 where it is none.
    pub(crate) fn ends(&self) -> Interval
        ensures low { result.low ≡ kinds.low_end (seen self.now) }
        ensures high { result.high ≡ kinds.high_end (seen self.now) }
    {
        match self {
            Kind::Interval(interval) => *interval,
            _ => Interval { low: 0, high: 0 },
        }
    }

    /// Whether 0 lies in the interval. What is no interval counts as only 0.
    pub fn has_zero(&self) -> bool
        ensures { result ≡ walk.has_zero (seen self.now) }
    {
        let ends = self.ends();
        ends.low <= 0 && 0 <= ends.high
    }

    /// The number of values.
    pub fn width(&self) -> u32
        requires narrow { IsFalse (walk.is_wide (seen self.now)) }
        ensures { result ≡ kinds.width (seen self.now) }
    {
        match self {
            Kind::Boolean => 2,
            Kind::Interval(interval) => interval.count(),
            Kind::Among(values) => values.len() as u32,
        }
    }

    /// The values, as `values` gives them.
    pub(crate) fn into_values(self, alloc: Global) -> Result<Seq<Value>, NoMemory>
        requires narrow { IsFalse (walk.is_wide (seen self)) }
        ensures { IfOk result (λ xs. xs ≡ kinds.values_of (seen self)) }
    {
        match self {
            Kind::Boolean => both(alloc),
            Kind::Interval(interval) => integers(alloc, interval.low, interval.count()),
            Kind::Among(values) => Ok(values),
        }
    }

    /// The values: FALSE and TRUE, the integers of the interval in their order, or the list.
    pub fn values(&self, alloc: Global) -> Result<Seq<Value>, NoMemory>
        requires narrow { IsFalse (walk.is_wide (seen self.now)) }
        ensures { IfOk result (λ xs. xs ≡ kinds.values_of (seen self.now)) }
    {
        match self {
            Kind::Boolean => both(alloc),
            Kind::Interval(interval) => integers(alloc, interval.low, interval.count()),
            Kind::Among(values) => values.copy(alloc),
        }
    }
}

fn both(alloc: Global) -> Result<Seq<Value>, NoMemory>
    ensures { IfOk result (λ xs. xs ≡ kinds.values_of kinds.boolean) }
{
    let mut values = Seq::new(alloc);
    values.push(Value::Bool(false))?;
    values.push(Value::Bool(true))?;
    Ok(values)
}
