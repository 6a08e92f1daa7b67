use crate::reading::flat_model;
use cov_model::Model;
use cov_syntax::{Expr, Names, Node, Op2, Value};
use std::test::Fail;

/// A variable of three values, and two cells of which the second follows the first.
pub(crate) const CELLS: &[u8] = b"MODULE main
VAR mode : {idle, work, rest};
    a : cell(mode = work);
    b : cell(a.out);
ASSIGN init(mode) := idle;
  next(mode) := case mode = idle : work; mode = work : rest; 1 : idle; esac;
SPEC AG (a.out -> AX b.out)
MODULE cell(d)
VAR out : boolean;
ASSIGN init(out) := 0; next(out) := d;
";

fn has_text(names: &Names, i: u32, text: &[u8]) -> bool {
    i < names.len() && names.text(i) == text
}

/// Whether the variable at a place has this flat name, with this number, and so many values.
fn has_variable(m: &Model, i: usize, text: &[u8], name: u32, values: usize) -> bool {
    if i >= m.vars.len() {
        return false;
    }
    let x = m.vars.get(i);
    x.name == name && x.values.len() == values && has_text(&m.names, x.name, text)
}

/// Whether the expression is the variable of this number.
fn reads_variable(e: &Expr, i: u32) -> bool {
    match e.node {
        Node::Var(j) => i == j,
        _ => false,
    }
}

/// Whether the expression is the DEFINE of this number.
fn reads_define(e: &Expr, i: u32) -> bool {
    match e.node {
        Node::Def(j) => i == j,
        _ => false,
    }
}

/// Whether the expression compares the variable of this number with this symbol.
fn compares(m: &Model, e: &Expr, i: u32, symbol: &[u8]) -> bool {
    let Node::Two(Op2::Eq, a, b) = &e.node else {
        return false;
    };
    let Node::Lit(Value::Sym(s)) = b.get().node else {
        return false;
    };
    reads_variable(a.get(), i) && has_text(&m.names, s, symbol)
}

/// Whether the DEFINE at a place has this flat name, with this number, and compares a variable with a symbol.
fn has_define(m: &Model, i: usize, text: &[u8], name: u32, var: u32, symbol: &[u8]) -> bool {
    if i >= m.defines.len() {
        return false;
    }
    let d = m.defines.get(i);
    d.name == name && has_text(&m.names, d.name, text) && compares(m, &d.body, var, symbol)
}

/// Whether the assignment of the next value at a place gives a variable the DEFINE of this number.
fn is_next_define(m: &Model, i: usize, var: u32, define: u32) -> bool {
    if i >= m.nexts.len() {
        return false;
    }
    let a = m.nexts.get(i);
    a.var == var && reads_define(&a.body, define)
}

/// Whether the assignment of the next value at a place gives a variable the value of another.
fn is_next_variable(m: &Model, i: usize, var: u32, other: u32) -> bool {
    if i >= m.nexts.len() {
        return false;
    }
    let a = m.nexts.get(i);
    a.var == var && reads_variable(&a.body, other)
}

/// The lengths of the lists of variables, DEFINEs, assignments and specifications, and of the names.
fn lengths(m: &Model) -> [usize; 6] {
    [
        m.names.len() as usize,
        m.vars.len(),
        m.defines.len(),
        m.firsts.len(),
        m.nexts.len(),
        m.specs.len(),
    ]
}

/// The argument of `a` is no path, that of `b` stands for the variable `a.out`. Behind the ten names of the text stand the flat names that
/// are new, those of the variables first.
#[test]
fn cells_are_flat(rt: HostRuntime) -> Result<(), Fail> {
    let m = flat_model(rt.alloc(), CELLS).ok().ok_or("refused")?;
    assert_eq!(rt; lengths(&m), [13, 3, 1, 3, 3, 1]);
    assert!(rt; has_variable(&m, 0, b"mode", 1, 3));
    assert!(rt; has_variable(&m, 1, b"a.out", 10, 2));
    assert!(rt; has_variable(&m, 2, b"b.out", 11, 2));
    assert!(rt; has_define(&m, 0, b"a.d", 12, 0, b"work"));
    assert!(rt; is_next_define(&m, 1, 1, 0));
    assert!(rt; is_next_variable(&m, 2, 2, 1));
    Ok(())
}
