ghost use Rattle.std.specs.Prelude.{◌≡◌, [], IfOk, unwrap_or, option_map};
ghost use Rattle.std.specs.Option.{option_copied};
ghost use Rattle.cov_syntax.specs.declared.tree.Node.{Node};
ghost use Rattle.cov_syntax.specs.declared.tree.Node.TheOpen.{Node-F};
ghost use Rattle.cov_model.specs.Kinds.{Kinds, boolean};
ghost use Rattle.cov_model.specs.Walk as walk;
ghost use Rattle.cov_model.specs.Walk.{of_node, judged_literal, simple};
ghost use Rattle.cov_kinds.specs.Seen.{seen};
ghost use Rattle.cov_walk.specs.Found.{Answers};
ghost use Rattle.cov_walk.specs.Places.{may_of, is_bit};

use crate::found::Found;
use crate::misfits::Misfits;
use crate::refuse::{refuse_if, too_wide};
use crate::site::Site;
use cov_kinds::{Interval, Kind, literal};
use cov_syntax::{FaultKind, NoMemory, Refused, Span, Value};
use std::alloc::Global;

/// An expression with no part, by its own kind.
pub(crate) fn leaf(place: Span, own: Kind) -> Result<Found, Refused>
    ensures { (m : Node) (may : walk.May) → Answers (simple place m (seen own) (λ may. []) m) may result }
{
    if own.is_wide() {
        return Err(too_wide(place));
    }
    Ok(Found::new(own, Misfits::everywhere(place)))
}

/// The kind of what is read, and Boolean where nothing is there.
pub(crate) fn kind_read(alloc: Global, kind: Option<&Kind>) -> Result<Kind, NoMemory>
    ensures { IfOk result (λ k. seen k ≡ unwrap_or (option_map seen (option_copied kind.entry)) boolean) }
{
    match kind {
        None => Ok(Kind::Boolean),
        Some(kind) => kind.copy(alloc),
    }
}

/// Whether a Boolean place takes the literal though it is an integer.
fn is_bit(value: Value) -> bool
    ensures { result ≡ is_bit value }
{
    match value {
        Value::Int(n) => n == 0 || n == 1,
        _ => false,
    }
}

/// A literal.
pub(crate) fn literal_found(alloc: Global, place: Span, value: Value) -> Result<Found, Refused>
    ensures { (may : walk.May) → Answers (judged_literal place value) may result }
{
    let own = literal(alloc, value)?;
    if own.is_wide() {
        return Err(too_wide(place));
    }
    if is_bit(value) {
        return Ok(Found::fitting(own));
    }
    Ok(Found::new(own, Misfits::everywhere(place)))
}

/// A range.
pub(crate) fn range(at: Site, low: i32, high: i32) -> Result<Found, Refused>
    ensures { (ks : Kinds) → Answers (of_node ks (Node-F.Range low high) at.place) (may_of at.may) result }
{
    refuse_if(high < low, FaultKind::BadType, at.place)?;
    refuse_if(!at.may.set, FaultKind::SetPlace, at.place)?;
    leaf(at.place, Kind::Interval(Interval { low, high }))
}
