use cov_ctl::{Formula, constant, lower, lowered_size, occurrence, polarity, replace, size};
use cov_syntax::{Expr, NoMemory, Node, Op1, Op2, Span, Value};
use sqlite_items::Boxed;
use std::alloc::Global;
use std::test::Fail;

fn put(node: Node) -> Expr {
    Expr {
        node,
        place: Span { start: 0, stop: 0 },
    }
}

fn one(alloc: Global, op: Op1, a: Expr) -> Result<Expr, NoMemory> {
    Ok(put(Node::One(op, Boxed::new(alloc, a)?)))
}

fn two(alloc: Global, op: Op2, a: Expr, b: Expr) -> Result<Expr, NoMemory> {
    let a = Boxed::new(alloc, a)?;
    Ok(put(Node::Two(op, a, Boxed::new(alloc, b)?)))
}

fn q() -> Expr {
    put(Node::Var(0))
}

/// `AG (q op AX !q)`.
fn always(alloc: Global, op: Op2) -> Result<Expr, NoMemory> {
    let not_q = one(alloc, Op1::Not, q())?;
    let next = one(alloc, Op1::Ax, not_q)?;
    let both = two(alloc, op, q(), next)?;
    one(alloc, Op1::Ag, both)
}

/// The size of the lowered formula, which is small.
fn lowered_nodes(alloc: Global, e: &Expr) -> Result<u32, NoMemory> {
    let nodes = lowered_size(e);
    let f = lower(alloc, e)?;
    if nodes > 4096 {
        return Ok(0);
    }
    Ok(size(&f))
}

#[test]
fn a_temporal_iff_is_written_out(rt: HostRuntime) -> Result<(), Fail> {
    let alloc = rt.alloc();
    for (op, nodes) in [
        (Op2::Iff, 14),
        (Op2::Xor, 14),
        (Op2::And, 6),
        (Op2::Implies, 6),
    ] {
        let e = always(alloc, op)?;
        assert_eq!(rt; lowered_size(&e), nodes);
        assert_eq!(rt; lowered_nodes(alloc, &e)?, nodes);
    }
    Ok(())
}

#[test]
fn a_propositional_iff_is_one_atom(rt: HostRuntime) -> Result<(), Fail> {
    let alloc = rt.alloc();
    let e = two(alloc, Op2::Iff, q(), one(alloc, Op1::Not, q())?)?;
    assert_eq!(rt; lowered_nodes(alloc, &e)?, 1);
    Ok(())
}

#[test]
fn counting_ends_above_the_limit(rt: HostRuntime) -> Result<(), Fail> {
    let alloc = rt.alloc();
    let mut e = one(alloc, Op1::Ex, q())?;
    for _ in 0..40 {
        e = two(alloc, Op2::Iff, e, q())?;
    }
    assert_eq!(rt; lowered_size(&e), 4097);
    Ok(())
}

/// `AG (q -> EX q)`.
fn response(alloc: Global) -> Result<Formula, NoMemory> {
    let next = one(alloc, Op1::Ex, q())?;
    let implied = two(alloc, Op2::Implies, q(), next)?;
    lower(alloc, &one(alloc, Op1::Ag, implied)?)
}

/// The formula with TRUE at occurrence `n`, if there is one.
fn with_true(alloc: Global, f: &Formula, n: u32) -> Result<Option<Formula>, NoMemory> {
    match polarity(f, n) {
        Some(_) => Ok(Some(replace(alloc, f, n, &constant(true))?)),
        None => Ok(None),
    }
}

fn is_true(f: Option<&Formula>) -> bool {
    match f {
        Some(Formula::Atom(e)) => match &e.node {
            Node::Lit(Value::Bool(truth)) => *truth,
            _ => false,
        },
        _ => false,
    }
}

#[test]
fn a_premise_is_negative(rt: HostRuntime) -> Result<(), Fail> {
    let f = response(rt.alloc())?;
    assert_eq!(rt; polarity(&f, 3), Some(false));
    assert_eq!(rt; polarity(&f, 5), Some(true));
    assert_eq!(rt; polarity(&f, 6), None);
    Ok(())
}

#[test]
fn one_occurrence_is_replaced(rt: HostRuntime) -> Result<(), Fail> {
    let alloc = rt.alloc();
    let f = response(alloc)?;
    let replaced = with_true(alloc, &f, 3)?.ok_or("the premise is missing")?;
    assert!(rt; is_true(occurrence(&replaced, 3)));
    assert!(rt; !is_true(occurrence(&replaced, 5)));
    assert!(rt; !is_true(occurrence(&f, 3)));
    Ok(())
}
