//! Trees, and the texts that they are printed as.

mod formulas;

use cov_ctl::Formula;
use cov_model::Model;
use cov_show::{show_formula, show_tree};
use cov_syntax::{Branch, Expr, Names, NoMemory, Node, Op1, Op2, Seq, Span, Value};
use sqlite_items::Boxed;
use std::alloc::Global;
use std::mem;
use std::test::Fail;

/// A part of a tree. Operands stand before their operator, elements before their set, and branches before their case.
#[derive(Clone, Copy)]
enum Part {
    Path(&'static [u32]),
    Var(u32),
    Def(u32),
    Truth(bool),
    Int(i32),
    Range(i32, i32),
    One(Op1),
    Two(Op2),
    /// The last tree is an element.
    Element,
    Set,
    /// The last two trees are a guard and a body.
    Branch,
    Case,
}

use Part::{Case, Element, Int, One, Path, Range, Set, Truth, Two};

/// Puts trees together from their parts.
#[derive(Drop)]
struct Builder {
    alloc: Global,
    trees: Vec<Expr>,
    elements: Seq<Expr>,
    branches: Seq<Branch>,
}

impl Builder {
    fn put(&mut self, node: Node) -> Result<(), NoMemory> {
        let place = Span { start: 0, stop: 0 };
        self.trees.push(Expr { node, place })?;
        Ok(())
    }

    fn put_one(&mut self, op: Op1) -> Result<(), NoMemory> {
        match self.trees.pop() {
            Some(e) => {
                let e = Boxed::new(self.alloc, e)?;
                self.put(Node::One(op, e))
            }
            None => Ok(()),
        }
    }

    fn put_two(&mut self, op: Op2) -> Result<(), NoMemory> {
        match (self.trees.pop(), self.trees.pop()) {
            (Some(b), Some(a)) => {
                let a = Boxed::new(self.alloc, a)?;
                let b = Boxed::new(self.alloc, b)?;
                self.put(Node::Two(op, a, b))
            }
            _ => Ok(()),
        }
    }

    fn put_element(&mut self) -> Result<(), NoMemory> {
        match self.trees.pop() {
            Some(e) => self.elements.push(e),
            None => Ok(()),
        }
    }

    fn put_branch(&mut self) -> Result<(), NoMemory> {
        match (self.trees.pop(), self.trees.pop()) {
            (Some(body), Some(guard)) => self.branches.push(Branch { guard, body }),
            _ => Ok(()),
        }
    }

    fn add(&mut self, part: Part) -> Result<(), NoMemory> {
        match part {
            Path(names) => {
                let mut path = Seq::new(self.alloc);
                path.extend_from_slice(names)?;
                self.put(Node::Path(path))
            }
            Part::Var(i) => self.put(Node::Var(i)),
            Part::Def(i) => self.put(Node::Def(i)),
            Truth(b) => self.put(Node::Lit(Value::Bool(b))),
            Int(i) => self.put(Node::Lit(Value::Int(i))),
            Range(low, high) => self.put(Node::Range(low, high)),
            One(op) => self.put_one(op),
            Two(op) => self.put_two(op),
            Element => self.put_element(),
            Set => {
                let elements = mem::replace(&mut self.elements, Seq::new(self.alloc));
                self.put(Node::Set(elements))
            }
            Part::Branch => self.put_branch(),
            Case => {
                let branches = mem::replace(&mut self.branches, Seq::new(self.alloc));
                self.put(Node::Case(branches))
            }
        }
    }
}

/// The tree that the parts make, if they make one.
fn tree(alloc: Global, parts: &[Part]) -> Result<Option<Expr>, NoMemory> {
    let mut builder = Builder {
        alloc,
        trees: Vec::new(alloc),
        elements: Seq::new(alloc),
        branches: Seq::new(alloc),
    };
    for part in parts {
        builder.add(*part)?;
    }
    Ok(builder.trees.pop())
}

/// A model of names alone, so that an expression is printed as it stands.
fn names_alone(alloc: Global, names: Names) -> Model {
    Model {
        names,
        vars: Seq::new(alloc),
        defines: Seq::new(alloc),
        inits: Seq::new(alloc),
        invars: Seq::new(alloc),
        nows: Seq::new(alloc),
        firsts: Seq::new(alloc),
        nexts: Seq::new(alloc),
        trans: Seq::new(alloc),
        fair: Seq::new(alloc),
        specs: Seq::new(alloc),
    }
}

fn prints_as(alloc: Global, m: &Model, parts: &[Part], want: &str) -> Result<bool, NoMemory> {
    match tree(alloc, parts)? {
        Some(e) => {
            let mut text = Seq::new(alloc);
            show_formula(alloc, m, &Formula::Atom(e), &mut text)?;
            Ok(text.as_slice() == want.as_bytes())
        }
        None => Ok(false),
    }
}

const A: Part = Path(&[0]);

const B: Part = Path(&[1]);

const C: Part = Path(&[2]);

const X: Part = Path(&[3]);

const Y: Part = Path(&[4]);

const MODE: Part = Path(&[5]);

const WORK: Part = Path(&[6]);

const REST: Part = Path(&[7]);

const IDLE: Part = Path(&[8]);

/// The parts of trees, and their texts.
const ROWS: [(&[Part], &str); 40] = [
    (
        &[A, B, C, Two(Op2::Implies), Two(Op2::Implies)],
        "a -> b -> c",
    ),
    (
        &[A, B, Two(Op2::Implies), C, Two(Op2::Implies)],
        "(a -> b) -> c",
    ),
    (&[A, B, C, Two(Op2::Sub), Two(Op2::Sub)], "a - (b - c)"),
    (&[A, B, Two(Op2::Sub), C, Two(Op2::Sub)], "a - b - c"),
    (&[A, Int(-1), Two(Op2::Sub)], "a - -1"),
    (&[Int(1), One(Op1::Neg)], "-(1)"),
    (&[Int(-1), One(Op1::Neg)], "-(-1)"),
    (&[Range(-1, 2), One(Op1::Neg)], "-(-1..2)"),
    (&[X, One(Op1::Neg), One(Op1::Neg)], "-(-x)"),
    (&[X, Y, Two(Op2::Mul), One(Op1::Neg)], "-(x * y)"),
    (&[X, One(Op1::Neg), Y, Two(Op2::Mul)], "-x * y"),
    (&[A, B, Two(Op2::And), One(Op1::Not)], "!(a & b)"),
    (&[A, One(Op1::Not), B, Two(Op2::And)], "!a & b"),
    (&[A, B, Two(Op2::Eq), One(Op1::Not)], "!a = b"),
    (&[A, B, One(Op1::Not), Two(Op2::Eq)], "a = (!b)"),
    (&[A, One(Op1::Not), One(Op1::Not)], "!!a"),
    (&[A, One(Op1::Ex)], "EX a"),
    (&[A, One(Op1::Eg), One(Op1::Ef), One(Op1::Ax)], "AX EF EG a"),
    (&[A, One(Op1::Af), B, Two(Op2::Or)], "AF a | b"),
    (&[A, B, C, Two(Op2::Eq), Two(Op2::Eq)], "a = (b = c)"),
    (&[A, B, C, Two(Op2::Xor), Two(Op2::Or)], "a | (b xor c)"),
    (&[A, B, Two(Op2::Iff), C, Two(Op2::Ne)], "(a <-> b) != c"),
    (
        &[
            X,
            Int(1),
            Element,
            Int(2),
            Element,
            Set,
            Y,
            Two(Op2::Union),
            Two(Op2::Member),
        ],
        "x in {1, 2} union y",
    ),
    (
        &[X, Y, Two(Op2::Mod), Int(3), Two(Op2::Add)],
        "(x mod y) + 3",
    ),
    (&[X, Y, Int(3), Two(Op2::Add), Two(Op2::Mod)], "x mod y + 3"),
    (&[X, Y, Two(Op2::Div), Int(-3), Two(Op2::Ge)], "x / y >= -3"),
    (
        &[X, Y, Two(Op2::Lt), X, Y, Two(Op2::Le), Two(Op2::Gt)],
        "x < y > (x <= y)",
    ),
    (&[A, B, Two(Op2::Au)], "A[a U b]"),
    (
        &[A, B, Two(Op2::Implies), B, Two(Op2::Eu), One(Op1::Not)],
        "!E[a -> b U b]",
    ),
    (&[X, One(Op1::Next), Int(0), Two(Op2::Eq)], "next(x) = 0"),
    (&[Range(0, 2)], "0..2"),
    (&[Truth(true), Truth(false), Two(Op2::Or)], "TRUE | FALSE"),
    (&[MODE, WORK, Two(Op2::Eq)], "mode = work"),
    (&[Int(0)], "0"),
    (&[Path(&[9])], "d"),
    (
        &[
            MODE,
            IDLE,
            Two(Op2::Eq),
            WORK,
            Part::Branch,
            MODE,
            WORK,
            Two(Op2::Eq),
            REST,
            Part::Branch,
            Int(1),
            IDLE,
            Part::Branch,
            Case,
        ],
        "case mode = idle : work; mode = work : rest; 1 : idle; esac",
    ),
    (
        &[
            Path(&[0, 10]),
            Path(&[1, 10]),
            One(Op1::Ax),
            Two(Op2::Implies),
            One(Op1::Ag),
        ],
        "AG (a.out -> AX b.out)",
    ),
    (&[A, Element, Set], "{a}"),
    (&[A, B, Two(Op2::Implies), Element, Set], "{a -> b}"),
    (
        &[X, Y, Two(Op2::Union), X, Two(Op2::Union)],
        "x union y union x",
    ),
];

#[test]
fn trees_are_printed_so(rt: HostRuntime) -> Result<(), Fail> {
    let mut names = Names::new(rt.alloc());
    for name in [
        "a", "b", "c", "x", "y", "mode", "work", "rest", "idle", "d", "out",
    ] {
        if names.len() < u32::MAX {
            names.add(name.as_bytes())?;
        }
    }
    let m = names_alone(rt.alloc(), names);
    for (parts, text) in ROWS {
        assert!(rt;
            prints_as(rt.alloc(), &m, parts, text)?,
            "not printed as {text}"
        );
    }
    Ok(())
}

#[test]
fn a_text_is_put_behind_what_stands(rt: HostRuntime) -> Result<(), Fail> {
    let place = Span { start: 0, stop: 4 };
    let node = Node::Lit(Value::Bool(true));
    let mut text = Seq::new(rt.alloc());
    text.extend_from_slice(b"a = ")?;
    show_tree(
        rt.alloc(),
        &Names::new(rt.alloc()),
        &Expr { node, place },
        &mut text,
    )?;
    assert!(rt; text.as_slice() == b"a = TRUE".as_slice());
    Ok(())
}
