//! Formulas, and the texts that they are printed as.

use super::{Part, tree};
use Part::{Int, One, Two};
use cov_ctl::lower;
use cov_model::{Define, Model, Var};
use cov_show::show_formula;
use cov_syntax::{Expr, Names, NoMemory, Node, Op1, Op2, Seq, Span, Value};
use std::alloc::Global;
use std::test::Fail;

const NOWHERE: Span = Span { start: 0, stop: 0 };

/// The names of the model: a DEFINE stands before its variables, and no name has the number of what it names.
const NAMES: [&str; 4] = ["m.done", "m.x", "b", "a"];

fn variable(alloc: Global, name: u32) -> Var {
    Var {
        name,
        values: Seq::new(alloc),
        place: NOWHERE,
        kind_place: NOWHERE,
    }
}

/// The variables a, b and m.x, and the DEFINE m.done.
fn model(alloc: Global) -> Result<Model, NoMemory> {
    let mut names = Names::new(alloc);
    for name in NAMES {
        if names.len() < u32::MAX {
            names.add(name.as_bytes())?;
        }
    }
    let mut vars = Seq::new(alloc);
    for name in [3, 2, 1] {
        vars.push(variable(alloc, name))?;
    }
    let mut defines = Seq::new(alloc);
    let body = Expr {
        node: Node::Lit(Value::Bool(true)),
        place: NOWHERE,
    };
    defines.push(Define {
        name: 0,
        body,
        place: NOWHERE,
    })?;
    Ok(Model {
        names,
        vars,
        defines,
        inits: Seq::new(alloc),
        invars: Seq::new(alloc),
        nows: Seq::new(alloc),
        firsts: Seq::new(alloc),
        nexts: Seq::new(alloc),
        trans: Seq::new(alloc),
        fair: Seq::new(alloc),
        specs: Seq::new(alloc),
    })
}

fn prints_as(alloc: Global, m: &Model, parts: &[Part], want: &str) -> Result<bool, NoMemory> {
    match tree(alloc, parts)? {
        Some(e) => {
            let f = lower(alloc, &e)?;
            let mut text = Seq::new(alloc);
            show_formula(alloc, m, &f, &mut text)?;
            Ok(text.as_slice() == want.as_bytes())
        }
        None => Ok(false),
    }
}

const A: Part = Part::Var(0);

const B: Part = Part::Var(1);

const X: Part = Part::Var(2);

const DONE: Part = Part::Def(0);

/// The parts of expressions, and the texts of their formulas.
const ROWS: [(&[Part], &str); 6] = [
    (
        &[
            A,
            DONE,
            One(Op1::Af),
            Two(Op2::Implies),
            One(Op1::Ag),
            A,
            B,
            Two(Op2::And),
            One(Op1::Not),
            One(Op1::Eg),
            One(Op1::Ef),
            Two(Op2::And),
            A,
            One(Op1::Ax),
            Two(Op2::Or),
            A,
            B,
            Two(Op2::Implies),
            B,
            One(Op1::Ex),
            Two(Op2::Au),
            A,
            B,
            Two(Op2::Or),
            X,
            Int(2),
            Two(Op2::Eq),
            Two(Op2::Eu),
            Two(Op2::Implies),
            Two(Op2::Implies),
        ],
        "AG (a -> AF m.done) & EF EG !(a & b) | AX a -> A[a -> b U EX b] -> E[a | b U m.x = 2]",
    ),
    (
        &[
            A,
            B,
            Two(Op2::Implies),
            A,
            B,
            Two(Op2::Or),
            A,
            B,
            Two(Op2::And),
            Two(Op2::And),
            Two(Op2::Implies),
        ],
        "(a -> b) -> (a | b) & (a & b)",
    ),
    (&[A, B, Two(Op2::And), A, Two(Op2::And)], "a & b & a"),
    (
        &[A, B, Two(Op2::Or), B, A, Two(Op2::Or), Two(Op2::Or)],
        "a | b | (b | a)",
    ),
    (
        &[
            A,
            B,
            Two(Op2::Iff),
            X,
            Int(2),
            Two(Op2::Eq),
            One(Op1::Not),
            Two(Op2::And),
        ],
        "(a <-> b) & !m.x = 2",
    ),
    (
        &[A, B, Two(Op2::Xor), One(Op1::Not), One(Op1::Not)],
        "!!(a xor b)",
    ),
];

#[test]
fn formulas_are_printed_so(rt: HostRuntime) -> Result<(), Fail> {
    let m = model(rt.alloc())?;
    for (parts, text) in ROWS {
        assert!(rt;
            prints_as(rt.alloc(), &m, parts, text)?,
            "not printed as {text}"
        );
    }
    Ok(())
}
