ghost use Rattle.std.specs.Prelude.{true, false, ◌≡◌, ◌∷◌, [], ◌++◌, map, IfOk, IfErr, OnOk, None, Some, if◌then◌else◌};
ghost use Rattle.cov_kinds.specs.Seen.{asks_of, seen};
ghost use Rattle.cov_model.specs.Kinds.{is_boolean, kind_at};
ghost use Rattle.cov_model.specs.Order.{with_body};
ghost use Rattle.cov_model.specs.Settled.{assign_fault, asked_by, define_faults, define_kinds, kinds_of, known, settled, settled_assign, settled_defines, settled_model, steady, walk_fault, whole_fault};
ghost use Rattle.cov_model.specs.Walk as walk;
ghost use Rattle.cov_types.specs.Lists as spec;
ghost use Rattle.cov_walk.specs.Found.{TellsFault};
ghost use Rattle.cov_walk.specs.Places.{asked, may_of};

use crate::kinds::is_boolean_variable;
use cov_kinds::{Asks, KindTable};
use cov_model::{Assign, Define, Model};
use cov_syntax::{Expr, NoMemory, Refused, Seq};
use cov_walk::{May, check, settle};
use std::alloc::Global;

/// A model whose expressions are settled, with the kinds of what they can read.
#[derive(Drop)]
pub(crate) struct Settled {
    pub(crate) model: Model,
    pub(crate) kinds: KindTable,
}

/// The settled conditions on states.
#[derive(Drop)]
struct StateLists {
    inits: Seq<Expr>,
    invars: Seq<Expr>,
}

/// The settled assignments of the three forms.
#[derive(Drop)]
struct AssignLists {
    nows: Seq<Assign>,
    firsts: Seq<Assign>,
    nexts: Seq<Assign>,
}

/// The settled conditions on steps and on paths, and the specifications.
#[derive(Drop)]
struct PathLists {
    trans: Seq<Expr>,
    fair: Seq<Expr>,
    specs: Seq<Expr>,
}

/// Checks every expression of a model in order, in turn, and settles it. Each DEFINE is read with the kinds of those before it.
pub(crate) fn settle_model(alloc: Global, m: Model) -> Result<Settled, Refused>
    ensures none { OnOk result (walk_fault m ≡ None) }
    ensures settled { IfOk result (λ s. s.model ≡ settled_model m) }
    ensures kinds { IfOk result (λ s. s.kinds ≡ kinds_of m) }
    ensures err { IfErr result (TellsFault (walk_fault m)) }
{
    let mut kinds = KindTable::of_variables(alloc, &m.vars)?;
    let defines = settle_defines(alloc, &mut kinds, &m.defines)?;
    let states = settle_states(alloc, &kinds, &m)?;
    let assigns = settle_all_assigns(alloc, &kinds, &m)?;
    let paths = settle_paths(alloc, &kinds, &m)?;
    let mut model = m;
    model.defines = defines;
    model.inits = states.inits;
    model.invars = states.invars;
    model.nows = assigns.nows;
    model.firsts = assigns.firsts;
    model.nexts = assigns.nexts;
    model.trans = paths.trans;
    model.fair = paths.fair;
    model.specs = paths.specs;
    Ok(Settled { model, kinds })
}

/// Settles INIT and INVAR.
fn settle_states(alloc: Global, kinds: &KindTable, m: &Model) -> Result<StateLists, Refused>
    ensures none { OnOk result (walk.first (spec.state_faults kinds.now m.now) ≡ None) }
    ensures inits { IfOk result (λ r. r.inits ≡ map (settled kinds.now true) m.now.inits) }
    ensures invars { IfOk result (λ r. r.invars ≡ map (settled kinds.now true) m.now.invars) }
    ensures err { IfErr result (TellsFault (walk.first (spec.state_faults kinds.now m.now))) }
{
    let inits = settle_conditions(alloc, kinds, May::steady(), &m.inits)?;
    let invars = settle_conditions(alloc, kinds, May::steady(), &m.invars)?;
    Ok(StateLists { inits, invars })
}

/// Settles the assignments: `x :=`, `init(x) :=` and `next(x) :=`.
fn settle_all_assigns(alloc: Global, kinds: &KindTable, m: &Model) -> Result<AssignLists, Refused>
    ensures none { OnOk result (walk.first (spec.assign_faults kinds.now m.now) ≡ None) }
    ensures nows { IfOk result (λ r. r.nows ≡ map (settled_assign kinds.now) m.now.nows) }
    ensures firsts { IfOk result (λ r. r.firsts ≡ map (settled_assign kinds.now) m.now.firsts) }
    ensures nexts { IfOk result (λ r. r.nexts ≡ map (settled_assign kinds.now) m.now.nexts) }
    ensures err { IfErr result (TellsFault (walk.first (spec.assign_faults kinds.now m.now))) }
{
    let nows = settle_assigns(alloc, kinds, May::chosen(), &m.nows)?;
    let firsts = settle_assigns(alloc, kinds, May::chosen(), &m.firsts)?;
    let nexts = settle_assigns(alloc, kinds, May::chosen_next(), &m.nexts)?;
    Ok(AssignLists {
        nows,
        firsts,
        nexts,
    })
}

/// Settles TRANS, FAIRNESS and SPEC.
fn settle_paths(alloc: Global, kinds: &KindTable, m: &Model) -> Result<PathLists, Refused>
    ensures none { OnOk result (walk.first (spec.path_faults kinds.now m.now) ≡ None) }
    ensures trans { IfOk result (λ r. r.trans ≡ map (settled kinds.now true) m.now.trans) }
    ensures fair { IfOk result (λ r. r.fair ≡ map (settled kinds.now true) m.now.fair) }
    ensures specs { IfOk result (λ r. r.specs ≡ map (settled kinds.now true) m.now.specs) }
    ensures err { IfErr result (TellsFault (walk.first (spec.path_faults kinds.now m.now))) }
{
    let trans = settle_conditions(alloc, kinds, May::moving(), &m.trans)?;
    let fair = settle_conditions(alloc, kinds, May::steady(), &m.fair)?;
    let specs = settle_conditions(alloc, kinds, May::timed(), &m.specs)?;
    Ok(PathLists { trans, fair, specs })
}

/// Settles the DEFINEs, and puts their kinds behind those of the table.
fn settle_defines(
    alloc: Global,
    kinds: &mut KindTable,
    defines: &Seq<Define>,
) -> Result<Seq<Define>, Refused>
    requires { kinds.old.defs ≡ [] }
    ensures none { OnOk result (walk.first (define_faults kinds.old.vars defines.now []) ≡ None) }
    ensures settled { IfOk result (λ ds. ds ≡ settled_defines kinds.old.vars defines.now []) }
    ensures kinds { OnOk result (kinds.new ≡ known kinds.old.vars (define_kinds kinds.old.vars defines.now [])) }
    ensures err { IfErr result (TellsFault (walk.first (define_faults kinds.old.vars defines.now []))) }
{
    let mut copies = Seq::new(alloc);
    for d in defines.as_slice() {
        copies.push(settle_define(alloc, kinds, d)?)?;
    }
    Ok(copies)
}

/// Settles a DEFINE with the kinds of those before it.
fn settle_define(alloc: Global, kinds: &mut KindTable, d: &Define) -> Result<Define, Refused>
    ensures none { OnOk result (whole_fault kinds.old steady None d.now.body ≡ None) }
    ensures settled { IfOk result (λ r. r ≡ with_body (settled kinds.old false) d.now) }
    ensures kinds { OnOk result (kinds.new ≡ known kinds.old.vars (kinds.old.defs ++ walk.own kinds.old d.now.body ∷ [])) }
    ensures err { IfErr result (TellsFault (whole_fault kinds.old steady None d.now.body)) }
{
    let own = check(alloc, kinds, May::steady(), None, &d.body)?;
    let body = settle(alloc, kinds, false, &d.body)?;
    kinds.push(own)?;
    Ok(Define {
        name: d.name,
        body,
        place: d.place,
    })
}

/// Settles conditions and specifications, which stand in Boolean places.
fn settle_conditions(
    alloc: Global,
    kinds: &KindTable,
    may: May,
    es: &Seq<Expr>,
) -> Result<Seq<Expr>, Refused>
    ensures none { OnOk result (walk.first (map (whole_fault kinds.now (may_of may) (Some walk.truth)) es.now) ≡ None) }
    ensures settled { IfOk result (λ r. r ≡ map (settled kinds.now true) es.now) }
    ensures err { IfErr result (TellsFault (walk.first (map (whole_fault kinds.now (may_of may) (Some walk.truth)) es.now))) }
{
    let mut copies = Seq::new(alloc);
    for e in es.as_slice() {
        check(alloc, kinds, may, Some(Asks::Truth), e)?;
        copies.push(settle(alloc, kinds, true, e)?)?;
    }
    Ok(copies)
}

/// Settles the right sides of assignments.
fn settle_assigns(
    alloc: Global,
    kinds: &KindTable,
    may: May,
    assigns: &Seq<Assign>,
) -> Result<Seq<Assign>, Refused>
    ensures none { OnOk result (walk.first (map (assign_fault kinds.now (may_of may)) assigns.now) ≡ None) }
    ensures settled { IfOk result (λ r. r ≡ map (settled_assign kinds.now) assigns.now) }
    ensures err { IfErr result (TellsFault (walk.first (map (assign_fault kinds.now (may_of may)) assigns.now))) }
{
    let mut copies = Seq::new(alloc);
    for a in assigns.as_slice() {
        copies.push(settle_assign(alloc, kinds, may, a)?)?;
    }
    Ok(copies)
}

/// Settles the right side of an assignment: a Boolean place where the variable is Boolean.
fn settle_assign(alloc: Global, kinds: &KindTable, may: May, a: &Assign) -> Result<Assign, Refused>
    ensures none { OnOk result (assign_fault kinds.now (may_of may) a.now ≡ None) }
    ensures settled { IfOk result (λ r. r ≡ settled_assign kinds.now a.now) }
    ensures err { IfErr result (TellsFault (assign_fault kinds.now (may_of may) a.now)) }
{
    let in_truth = is_boolean_variable(kinds, a.var);
    check(alloc, kinds, may, Some(asks_of_target(in_truth)), &a.body)?;
    let body = settle(alloc, kinds, in_truth, &a.body)?;
    Ok(Assign {
        var: a.var,
        body,
        place: a.place,
    })
}

/// What an assignment asks of its right side, by whether the variable is Boolean.
fn asks_of_target(is_boolean: bool) -> Asks
    ensures { asks_of result ≡ (if is_boolean then walk.truth else walk.no_truth) }
{
    if is_boolean {
        Asks::Truth
    } else {
        Asks::NoTruth
    }
}
