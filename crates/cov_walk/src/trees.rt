ghost use Rattle.std.specs.Prelude.{◌≡◌};
ghost use Rattle.cov_model.specs.Trees as spec;
ghost use Rattle.cov_model.specs.Values as values;

use cov_syntax::{Branch, Expr, Node, Op1, Op2, Value};

fn same_value(a: Value, b: Value) -> bool
    ensures { result ≡ values.same_value a b }
{
    match (a, b) {
        (Value::Bool(x), Value::Bool(y)) => x == y,
        (Value::Int(x), Value::Int(y)) => x == y,
        (Value::Sym(x), Value::Sym(y)) => x == y,
        _ => false,
    }
}

fn code_of_one(op: Op1) -> u8
    ensures { result ≡ spec.code_of_one op }
{
    match op {
        Op1::Not => 0,
        Op1::Neg => 1,
        Op1::Next => 2,
        Op1::Ex => 3,
        Op1::Ef => 4,
        Op1::Eg => 5,
        Op1::Ax => 6,
        Op1::Af => 7,
        Op1::Ag => 8,
    }
}

fn code_of_two(op: Op2) -> u8
    ensures { result ≡ spec.code_of_two op }
{
    match op {
        Op2::And => 0,
        Op2::Or => 1,
        Op2::Xor => 2,
        Op2::Implies => 3,
        Op2::Iff => 4,
        Op2::Eq => 5,
        Op2::Ne => 6,
        Op2::Lt => 7,
        Op2::Le => 8,
        Op2::Gt => 9,
        Op2::Ge => 10,
        Op2::Add => 11,
        Op2::Sub => 12,
        Op2::Mul => 13,
        Op2::Div => 14,
        Op2::Mod => 15,
        Op2::Union => 16,
        Op2::Member => 17,
        Op2::Au => 18,
        Op2::Eu => 19,
    }
}

fn same_path(p: &[u32], q: &[u32]) -> bool
    ensures { result ≡ spec.same_path p.now q.now }
{
    if p.len() != q.len() {
        return false;
    }
    for (i, part) in p.iter().enumerate() {
        if *part != q[i] {
            return false;
        }
    }
    true
}

/// Whether the trees are the same apart from places.
#[cycle(same)]
pub(crate) fn same_tree(a: &Expr, b: &Expr) -> bool
    ensures { result ≡ spec.same_tree a.now b.now }
{
    same_node(&a.node, &b.node)
}

#[cycle(same)]
fn same_node(a: &Node, b: &Node) -> bool
    ensures { result ≡ spec.same_node a.now b.now }
{
    match a {
        Node::Lit(x) => match b {
            Node::Lit(y) => same_value(*x, *y),
            _ => false,
        },
        Node::Path(p) => match b {
            Node::Path(q) => same_path(p.as_slice(), q.as_slice()),
            _ => false,
        },
        Node::Var(i) => matches!(b, Node::Var(j) if *i == *j),
        Node::Def(i) => matches!(b, Node::Def(j) if *i == *j),
        Node::One(op, x) => match b {
            Node::One(oq, y) => code_of_one(*op) == code_of_one(*oq) && same_tree(x.get(), y.get()),
            _ => false,
        },
        Node::Two(op, x, z) => match b {
            Node::Two(oq, y, w) => {
                code_of_two(*op) == code_of_two(*oq)
                    && same_tree(x.get(), y.get())
                    && same_tree(z.get(), w.get())
            }
            _ => false,
        },
        Node::Range(x, z) => match b {
            Node::Range(y, w) => *x == *y && *z == *w,
            _ => false,
        },
        Node::Set(es) => match b {
            Node::Set(fs) => same_trees(es.as_slice(), fs.as_slice()),
            _ => false,
        },
        Node::Case(bs) => match b {
            Node::Case(cs) => same_branches(bs.as_slice(), cs.as_slice()),
            _ => false,
        },
    }
}

#[cycle(same)]
fn same_trees(es: &[Expr], fs: &[Expr]) -> bool
    ensures { result ≡ spec.same_trees es.now fs.now }
{
    if es.len() != fs.len() {
        return false;
    }
    for (i, e) in es.iter().enumerate() {
        if !same_tree(e, &fs[i]) {
            return false;
        }
    }
    true
}

#[cycle(same)]
fn same_branches(bs: &[Branch], cs: &[Branch]) -> bool
    ensures { result ≡ spec.same_branches bs.now cs.now }
{
    if bs.len() != cs.len() {
        return false;
    }
    for (i, b) in bs.iter().enumerate() {
        if !same_branch(b, &cs[i]) {
            return false;
        }
    }
    true
}

#[cycle(same)]
fn same_branch(b: &Branch, c: &Branch) -> bool
    ensures { result ≡ spec.same_branch b.now c.now }
{
    same_tree(&b.guard, &c.guard) && same_tree(&b.body, &c.body)
}
