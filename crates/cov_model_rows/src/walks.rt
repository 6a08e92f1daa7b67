use cov_kinds::{Asks, KindTable};
use cov_syntax::{Expr, FaultKind, NoMemory, Node, Op2, Refused, Seq, Span, Value};
use cov_walk::{May, check, own_kind, settle, widest};
use sqlite_items::Boxed;
use std::alloc::Global;
use std::test::Fail;

/// An operator between two literals of one byte, with a byte on both of its sides.
fn between(alloc: Global, op: Op2, left: Value, right: Value) -> Result<Expr, NoMemory> {
    let left = Expr {
        node: Node::Lit(left),
        place: Span { start: 0, stop: 1 },
    };
    let right = Expr {
        node: Node::Lit(right),
        place: Span { start: 4, stop: 5 },
    };
    let node = Node::Two(op, Boxed::new(alloc, left)?, Boxed::new(alloc, right)?);
    Ok(Expr {
        node,
        place: Span { start: 0, stop: 5 },
    })
}

#[test]
fn reads_one_beside_a_boolean_as_true(rt: HostRuntime) -> Result<(), Fail> {
    let alloc = rt.alloc();
    let ks = KindTable::of_variables(alloc, &Seq::new(alloc))?;
    let e = between(alloc, Op2::Eq, Value::Int(1), Value::Bool(false))?;
    let kind = check(alloc, &ks, May::steady(), Some(Asks::Truth), &e)?;
    assert!(rt; kind.is_boolean());
    let again = own_kind(alloc, &ks, &e)?;
    assert!(rt; again.is_boolean());
    let settled = settle(alloc, &ks, true, &e)?;
    let Node::Two(_, left, _) = &settled.node else {
        return Err(Fail::from("no operator"));
    };
    assert!(rt; matches!(left.get().node, Node::Lit(Value::Bool(true))));
    Ok(())
}

#[test]
fn a_divisor_that_may_be_zero_is_refused_at_its_place(rt: HostRuntime) -> Result<(), Fail> {
    let alloc = rt.alloc();
    let ks = KindTable::of_variables(alloc, &Seq::new(alloc))?;
    let e = between(alloc, Op2::Div, Value::Int(1), Value::Int(0))?;
    let fault = FaultKind::DivisorMayBeZero.at(Span { start: 4, stop: 5 });
    match check(alloc, &ks, May::steady(), None, &e) {
        Err(Refused::Fault(told)) => assert!(rt; told == fault),
        _ => assert!(rt; false),
    }
    Ok(())
}

#[test]
fn the_right_side_of_in_is_wider_than_its_comparison(rt: HostRuntime) -> Result<(), Fail> {
    let alloc = rt.alloc();
    let ks = KindTable::of_variables(alloc, &Seq::new(alloc))?;
    let left = Expr {
        node: Node::Lit(Value::Int(5)),
        place: Span { start: 0, stop: 1 },
    };
    let right = Expr {
        node: Node::Range(1, 4),
        place: Span { start: 5, stop: 9 },
    };
    let e = Expr {
        node: Node::Two(
            Op2::Member,
            Boxed::new(alloc, left)?,
            Boxed::new(alloc, right)?,
        ),
        place: Span { start: 0, stop: 9 },
    };
    check(alloc, &ks, May::steady(), None, &e)?;
    assert!(rt; widest(alloc, &ks, &e)? == 4);
    Ok(())
}
