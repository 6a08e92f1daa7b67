ghost use Rattle.std.specs.Prelude.{◌≡◌, ◌∷◌, [], IfOk};
ghost use Rattle.cov_model.specs.Order.{reads};

use cov_model::{Define, Model};
use cov_order::put_in_order;
use cov_syntax::{Expr, FaultKind, Names, NoMemory, Node, Refused, Seq, Span};
use std::alloc::Global;
use std::test::Fail;

fn at(start: u32) -> Span {
    Span { start, stop: start }
}

/// A model with these two DEFINEs and one INIT.
fn model_of(alloc: Global, first: Define, second: Define, init: Expr) -> Result<Model, NoMemory>
    ensures { IfOk result (λ m. m.defines ≡ first ∷ second ∷ []) }
{
    let mut defines = Seq::new(alloc);
    defines.push(first)?;
    defines.push(second)?;
    let mut inits = Seq::new(alloc);
    inits.push(init)?;
    Ok(Model {
        names: Names::new(alloc),
        vars: Seq::new(alloc),
        defines,
        inits,
        invars: Seq::new(alloc),
        nows: Seq::new(alloc),
        firsts: Seq::new(alloc),
        nexts: Seq::new(alloc),
        trans: Seq::new(alloc),
        fair: Seq::new(alloc),
        specs: Seq::new(alloc),
    })
}

/// A DEFINE that is another one.
fn alias(name: u32, other: u32) -> Define
    ensures { reads result.body ≡ other ∷ [] }
{
    Define {
        name,
        body: Expr {
            node: Node::Def(other),
            place: at(name),
        },
        place: at(name),
    }
}

fn is_define(e: &Expr, i: u32) -> bool {
    match e.node {
        Node::Def(j) => j == i,
        _ => false,
    }
}

#[test]
fn a_define_stands_after_what_it_reads(rt: HostRuntime) -> Result<(), Fail> {
    let alloc = rt.alloc();
    let second = Define {
        name: 8,
        body: Expr {
            node: Node::Var(0),
            place: at(8),
        },
        place: at(8),
    };
    let init = Expr {
        node: Node::Def(0),
        place: at(9),
    };
    let m = model_of(alloc, alias(7, 1), second, init)?;
    let ordered = put_in_order(alloc, m)?;
    assert_eq!(rt; ordered.defines.len(), 2);
    assert_eq!(rt; ordered.defines.get(0).name, 8);
    assert_eq!(rt; ordered.defines.get(1).name, 7);
    assert!(rt; is_define(&ordered.defines.get(1).body, 0));
    assert_eq!(rt; ordered.inits.len(), 1);
    assert!(rt; is_define(ordered.inits.get(0), 1));
    Ok(())
}

#[test]
fn only_a_define_of_the_circle_is_at_fault(rt: HostRuntime) -> Result<(), Fail> {
    let alloc = rt.alloc();
    let init = Expr {
        node: Node::Def(0),
        place: at(9),
    };
    let m = model_of(alloc, alias(7, 1), alias(8, 1), init)?;
    match put_in_order(alloc, m) {
        Ok(_) => assert!(rt; false),
        Err(refused) => assert_eq!(rt; refused, Refused::Fault(FaultKind::Circular.at(at(8)))),
    }
    Ok(())
}
