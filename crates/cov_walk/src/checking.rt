ghost use Rattle.std.specs.Prelude.{◌≡◌, IfOk, IfErr, OnOk, IsFalse, None};
ghost use Rattle.cov_model.specs.Settled.{whole_fault};
ghost use Rattle.cov_model.specs.Walk.{own, is_wide};
ghost use Rattle.cov_kinds.specs.Seen.{seen};
ghost use Rattle.cov_walk.specs.Found.{TellsFault, HasNoFault};
ghost use Rattle.cov_walk.specs.Places.{may_of, asked};

use crate::found::Found;
use crate::judging::judge;
use crate::may::May;
use crate::refuse::refuse_misfit;
use cov_kinds::{Asks, Kind, KindTable};
use cov_syntax::{Expr, NoMemory, Refused};
use std::alloc::Global;

/// The first fault of an expression that stands in such a place, or else its own kind.
pub fn check(
    alloc: Global,
    ks: &KindTable,
    may: May,
    asks: Option<Asks>,
    e: &Expr,
) -> Result<Kind, Refused>
    ensures own { IfOk result (λ k. seen k ≡ own ks.now e.now) }
    ensures narrow { IfOk result (λ k. IsFalse (is_wide (own ks.now e.now))) }
    ensures none { OnOk result (whole_fault ks.now (may_of may) (asked asks) e.now ≡ None) }
    ensures faultless { OnOk result (HasNoFault ks.now e.now) }
    ensures err { IfErr result (TellsFault (whole_fault ks.now (may_of may) (asked asks) e.now)) }
{
    let found = judge(alloc, ks, may, e)?;
    refuse_misfit(asks, found.misfits)?;
    Ok(found.own)
}

/// The own kind of an expression in which the walk finds no fault in some place.
pub fn own_kind(alloc: Global, ks: &KindTable, e: &Expr) -> Result<Kind, NoMemory>
    requires { HasNoFault ks.now e.now }
    ensures own { IfOk result (λ k. seen k ≡ own ks.now e.now) }
    ensures narrow { IfOk result (λ k. IsFalse (is_wide (own ks.now e.now))) }
{
    match judge(alloc, ks, May::anything(), e) {
        Ok(found) => Ok(found.own),
        Err(Refused::Memory) => Err(NoMemory),
        Err(Refused::Fault(_)) => unreachable!(),
    }
}
