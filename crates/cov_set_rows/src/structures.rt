//! Values worked out by hand.

use cov_plain::{Formula, Graph, Labels, covered, passes, truth_set};
use sqlite_items::Boxed;
use std::alloc::{AllocError, Global};
use std::process::Abort;
use std::test::Fail;

/// Five states: 0 steps to itself and to 1, 1 to 2, 2 to 1 and 3, 3 to itself and to 4, and 4
/// nowhere. The fairness set has 1 and 3. So a fair lasso leaves 0, and none comes to 4.
fn five_states(alloc: Global) -> Result<Graph, AllocError> {
    Ok(Graph {
        size: 5,
        initial: vec![in alloc; true]?,
        steps: vec![in alloc;
            vec![in alloc; true, true]?,
            vec![in alloc; false, false, true]?,
            vec![in alloc; false, true, false, true]?,
            vec![in alloc; false, false, false, true, true]?,
        ]?,
        fair: vec![in alloc; vec![in alloc; false, true, false, true]?]?,
    })
}

/// Atom 0 is p, at the states 0, 1 and 2; atom 1 is q, at 2 and 3; atom 2 is r, at 4.
fn five_labels(alloc: Global) -> Result<Labels, AllocError> {
    Ok(Labels {
        plain: vec![in alloc;
            vec![in alloc; true, true, true]?,
            vec![in alloc; false, false, true, true]?,
            vec![in alloc; false, false, false, false, true]?,
        ]?,
        inverted: Vec::new(alloc),
    })
}

fn holds_at(
    rt: &impl Abort,
    alloc: Global,
    formula: Formula,
    states: [bool; 5],
) -> Result<(), AllocError> {
    let graph = five_states(alloc)?;
    let labels = five_labels(alloc)?;
    let set = truth_set(alloc, &graph, &labels, None, &formula)?;
    assert_eq!(rt; set.as_slice(), states.as_slice());
    Ok(())
}

fn p(alloc: Global) -> Result<Boxed<Formula>, AllocError> {
    Boxed::new(alloc, Formula::Atom(0))
}

fn q(alloc: Global) -> Result<Boxed<Formula>, AllocError> {
    Boxed::new(alloc, Formula::Atom(1))
}

fn r(alloc: Global) -> Result<Boxed<Formula>, AllocError> {
    Boxed::new(alloc, Formula::Atom(2))
}

fn not(alloc: Global, formula: Boxed<Formula>) -> Result<Boxed<Formula>, AllocError> {
    Boxed::new(alloc, Formula::Not(formula))
}

#[test]
fn boolean_forms(rt: HostRuntime) -> Result<(), Fail> {
    let a = rt.alloc();
    holds_at(&rt, a, Formula::Atom(0), [true, true, true, false, false])?;
    holds_at(
        &rt,
        a,
        Formula::Not(p(a)?),
        [false, false, false, true, true],
    )?;
    holds_at(
        &rt,
        a,
        Formula::And(p(a)?, q(a)?),
        [false, false, true, false, false],
    )?;
    holds_at(
        &rt,
        a,
        Formula::Or(p(a)?, q(a)?),
        [true, true, true, true, false],
    )?;
    holds_at(
        &rt,
        a,
        Formula::Implies(p(a)?, q(a)?),
        [false, false, true, true, true],
    )?;
    Ok(())
}

#[test]
fn forms_of_some_lasso(rt: HostRuntime) -> Result<(), Fail> {
    let a = rt.alloc();
    holds_at(&rt, a, Formula::Ex(q(a)?), [false, true, true, true, false])?;
    holds_at(&rt, a, Formula::Ef(p(a)?), [true, true, true, false, false])?;
    holds_at(
        &rt,
        a,
        Formula::Eg(q(a)?),
        [false, false, true, true, false],
    )?;
    holds_at(
        &rt,
        a,
        Formula::Eu(q(a)?, not(a, p(a)?)?),
        [false, false, true, true, false],
    )?;
    Ok(())
}

#[test]
fn forms_of_every_lasso(rt: HostRuntime) -> Result<(), Fail> {
    let a = rt.alloc();
    holds_at(&rt, a, Formula::Ax(q(a)?), [false, true, false, true, true])?;
    holds_at(
        &rt,
        a,
        Formula::Af(not(a, p(a)?)?),
        [false, false, false, true, true],
    )?;
    holds_at(
        &rt,
        a,
        Formula::Ag(q(a)?),
        [false, false, false, true, true],
    )?;
    holds_at(
        &rt,
        a,
        Formula::Au(q(a)?, not(a, q(a)?)?),
        [true, true, false, false, true],
    )?;
    Ok(())
}

#[test]
fn unfair_paths_do_not_count(rt: HostRuntime) -> Result<(), Fail> {
    let a = rt.alloc();
    holds_at(&rt, a, Formula::Ex(r(a)?), [false; 5])?;
    holds_at(&rt, a, Formula::Eg(not(a, q(a)?)?), [false; 5])?;
    holds_at(&rt, a, Formula::Af(q(a)?), [true; 5])?;
    Ok(())
}

/// One signal that is false in state 0 and true in state 1, and turns at each step; it is inverted
/// in the mutants.
fn turning(alloc: Global) -> Result<(Graph, Labels), AllocError> {
    let graph = Graph {
        size: 2,
        initial: vec![in alloc; true]?,
        steps: vec![in alloc; vec![in alloc; false, true]?, vec![in alloc; true]?]?,
        fair: Vec::new(alloc),
    };
    let labels = Labels {
        plain: vec![in alloc; vec![in alloc; false, true]?]?,
        inverted: vec![in alloc; vec![in alloc; true, false]?]?,
    };
    Ok((graph, labels))
}

/// AG (!signal -> AX signal).
fn rises(alloc: Global) -> Result<Formula, AllocError> {
    let next = Boxed::new(alloc, Formula::Ax(p(alloc)?))?;
    let low = not(alloc, p(alloc)?)?;
    Ok(Formula::Ag(Boxed::new(alloc, Formula::Implies(low, next))?))
}

#[test]
fn a_state_is_covered_where_inverting_it_alone_is_seen(rt: HostRuntime) -> Result<(), Fail> {
    let a = rt.alloc();
    let (graph, labels) = turning(a)?;
    let formula = rises(a)?;
    assert!(rt; passes(a, &graph, &labels, None, &formula)?);
    assert!(rt; passes(a, &graph, &labels, Some(0), &formula)?);
    assert!(rt; !passes(a, &graph, &labels, Some(1), &formula)?);
    let states = covered(a, &graph, &labels, &formula)?;
    assert_eq!(rt; states.as_slice(), [false, true].as_slice());
    Ok(())
}
