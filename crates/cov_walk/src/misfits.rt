ghost use Rattle.std.specs.Prelude.{◌≡◌};
ghost use Rattle.cov_kinds.specs.Seen.{asks_of, seen};

use cov_kinds::{Asks, Kind};
use cov_syntax::Span;

/// For each thing that a place may ask, the first expression in the place that does not fit.
#[derive(Clone, Copy)]
pub(crate) struct Misfits {
    pub(crate) truth: Option<Span>,
    pub(crate) number: Option<Span>,
    pub(crate) no_truth: Option<Span>,
}

impl Misfits {
    ghost use Rattle.cov_walk.specs.Misfits.{misfit, IsUnless, IsEarlier};

    /// Everything fits.
    pub(crate) fn none() -> Misfits
        ensures { result ≡ record { truth = None; number = None; no_truth = None } }
    {
        Misfits {
            truth: None,
            number: None,
            no_truth: None,
        }
    }

    /// The expression here fits nothing.
    pub(crate) fn everywhere(place: Span) -> Misfits
        ensures { result ≡ record { truth = Some place; number = Some place; no_truth = Some place } }
    {
        Misfits {
            truth: Some(place),
            number: Some(place),
            no_truth: Some(place),
        }
    }

    /// What does not fit what a place asks.
    pub(crate) fn of(self, asks: Asks) -> Option<Span>
        ensures { result ≡ misfit self (asks_of asks) }
    {
        match asks {
            Asks::Truth => self.truth,
            Asks::Number => self.number,
            Asks::NoTruth => self.no_truth,
        }
    }

    /// The same, but nothing for what the kind fits.
    pub(crate) fn unless(self, kind: &Kind) -> Misfits
        ensures { IsUnless (seen kind.now) self result }
    {
        Misfits {
            truth: if kind.fits(Asks::Truth) {
                None
            } else {
                self.truth
            },
            number: if kind.fits(Asks::Number) {
                None
            } else {
                self.number
            },
            no_truth: if kind.fits(Asks::NoTruth) {
                None
            } else {
                self.no_truth
            },
        }
    }

    /// For each thing the first of both.
    pub(crate) fn or(self, later: Misfits) -> Misfits
        ensures { IsEarlier self later result }
    {
        Misfits {
            truth: self.truth.or(later.truth),
            number: self.number.or(later.number),
            no_truth: self.no_truth.or(later.no_truth),
        }
    }
}
