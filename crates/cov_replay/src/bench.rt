//! The memory of the judge.

ghost use Rattle.std.specs.Prelude.{◌≡◌, ◌≤◌, ◌*◌, IfOk, MatchOption, None, length};
ghost use Rattle.cov_ctl.specs.Formulas.{formula_of};
ghost use Rattle.cov_logic.specs.Occurrence as occurrence;
ghost use Rattle.cov_model.specs.WellFormed.{IsWellFormed};
ghost use Rattle.cov_replay.specs.Benches.{IsBenchFor, IsConstantIn, IsNumbered, IsSmall, IsSubject, levels_of};
ghost use Rattle.cov_claims.specs.Claims.{specification};
ghost use Rattle.cov_replay.specs.Heights as spec;
ghost use Rattle.cov_claims.specs.Places.{places_of};

use cov_claims::hardest;
use cov_ctl::{Formula, lower, polarity};
use cov_evid::{Claim, Evidence};
use cov_model::{Lasso, Model, Scratch};
use cov_syntax::{Expr, NoMemory};
use cov_types::Checked;
use std::alloc::Global;

/// What the numbers of evidence name.
#[derive(Drop)]
pub(crate) enum Subject {
    NoSpec,
    NoOccurrence,
    Claimed(Formula),
}

/// All memory that the judge needs for evidence: the claimed formula, the memory of the evaluator, and a level of cells for
/// each node from the top of the formula to an atom, one cell for each state.
#[derive(Drop)]
pub struct Bench {
    pub(crate) subject: Subject,
    pub(crate) scratch: Scratch,
    pub(crate) cells: Vec<bool>,
    pub(crate) levels: usize,
}

impl Bench {
    /// Takes the memory. A number that names nothing is no refusal here.
    pub fn make(alloc: Global, m: &Checked, e: &Evidence) -> Result<Bench, NoMemory>
        ensures { IfOk result (λ b. IsBenchFor m.now e.now b) }
    {
        let subject = subject_of(alloc, m.model(), e)?;
        let scratch = Scratch::new(alloc, m.model())?;
        let levels = levels(&subject);
        let cells = cells_for(alloc, &e.lasso, levels)?;
        Ok(Bench {
            subject,
            scratch,
            cells,
            levels,
        })
    }
}

/// The specification of this number, from 1.
fn numbered(m: &Model, n: u32) -> Option<&Expr>
    ensures { MatchOption result (specification m.now n ≡ None) (λ s. IsNumbered m.now n s.now) }
{
    if n == 0 {
        return None;
    }
    m.specs.as_slice().get(n as usize - 1)
}

/// What the evidence names, a constant in the place of an occurrence.
fn subject_of(alloc: Global, m: &Model, e: &Evidence) -> Result<Subject, NoMemory>
    requires { IsWellFormed m.now }
    ensures { IfOk result (λ s. IsSubject m.now e.now s) }
{
    let Some(spec) = numbered(m, e.spec) else {
        return Ok(Subject::NoSpec);
    };
    let f = lower(alloc, spec)?;
    match &e.claim {
        Claim::Mutant { .. } => Ok(Subject::Claimed(f)),
        Claim::Occurrence(n) => with_constant(alloc, f, *n),
    }
}

/// The formula with the constant in the place of the occurrence that makes it hardest to pass, if there is such an occurrence.
fn with_constant(alloc: Global, f: Formula, n: u32) -> Result<Subject, NoMemory>
    ensures { IfOk result (λ s. IsConstantIn (formula_of f) n s) }
{
    if polarity(&f, n).is_none() {
        return Ok(Subject::NoOccurrence);
    }
    Ok(Subject::Claimed(hardest(alloc, &f, n)?))
}

/// The levels of cells that what is judged needs.
fn levels(subject: &Subject) -> usize
    requires { IsSmall subject.now }
    ensures { result ≡ levels_of subject.now }
{
    match subject {
        Subject::NoSpec | Subject::NoOccurrence => 1,
        Subject::Claimed(f) => height(f),
    }
}

/// The greatest number of nodes from the top of a formula to an atom, both among them.
fn height(f: &Formula) -> usize
    requires { occurrence.size (formula_of f.now) ≤ 4096 }
    ensures height { result ≡ spec.height (formula_of f.now) }
    ensures bound { result ≤ occurrence.size (formula_of f.now) }
{
    match f {
        Formula::Atom(_) => 1,
        Formula::Not(a)
        | Formula::Ex(a)
        | Formula::Ef(a)
        | Formula::Eg(a)
        | Formula::Ax(a)
        | Formula::Af(a)
        | Formula::Ag(a) => 1 + height(a.get()),
        Formula::And(a, b)
        | Formula::Or(a, b)
        | Formula::Implies(a, b)
        | Formula::Eu(a, b)
        | Formula::Au(a, b) => 1 + height(a.get()).max(height(b.get())),
    }
}

/// So many levels of cells, one cell for each state.
fn cells_for(alloc: Global, l: &Lasso, levels: usize) -> Result<Vec<bool>, NoMemory>
    ensures { IfOk result (λ v. length v.items ≡ places_of l.now * levels) }
{
    let Some(places) = l.stem.len().checked_add(l.turn.len()) else {
        return Err(NoMemory);
    };
    let Some(cells) = places.checked_mul(levels) else {
        return Err(NoMemory);
    };
    Ok(vec![in alloc; false; cells]?)
}
