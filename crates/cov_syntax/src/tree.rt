ghost use Rattle.std.specs.Prelude.{◌≡◌, IfOk};

use crate::error::NoMemory;
use crate::seq::Seq;
use sqlite_items::Boxed;
use std::alloc::Global;

/// A value of an expression. A symbol is named by its place among the names.
#[derive(Clone, Copy, Debug, PartialEq, Eq)]
pub enum Value {
    Bool(bool),
    Int(i32),
    Sym(u32),
}

/// Bytes of the text, from `start` to before `stop`.
#[derive(Clone, Copy, Debug, PartialEq, Eq)]
pub struct Span {
    pub start: u32,
    pub stop: u32,
}

/// An operator with one operand.
#[derive(Clone, Copy, Debug, PartialEq, Eq)]
pub enum Op1 {
    Not,
    Neg,
    Next,
    Ex,
    Ef,
    Eg,
    Ax,
    Af,
    Ag,
}

/// An operator with two operands.
#[derive(Clone, Copy, Debug, PartialEq, Eq)]
pub enum Op2 {
    And,
    Or,
    Xor,
    Implies,
    Iff,
    Eq,
    Ne,
    Lt,
    Le,
    Gt,
    Ge,
    Add,
    Sub,
    Mul,
    Div,
    Mod,
    Union,
    Member,
    Au,
    Eu,
}

/// An expression, with the bytes from its first token to its last one, outer parentheses aside.
#[cycle(tree)]
#[derive(Drop)]
pub struct Expr {
    pub node: Node,
    pub place: Span,
}

/// What an expression is. A path stands before flattening, a variable or a DEFINE after it.
#[cycle(tree)]
pub enum Node {
    Lit(Value),
    Path(Seq<u32>),
    Var(u32),
    Def(u32),
    One(Op1, Boxed<Expr>),
    Two(Op2, Boxed<Expr>, Boxed<Expr>),
    Range(i32, i32),
    Set(Seq<Expr>),
    Case(Seq<Branch>),
}

/// Written out, so that a node that goes out of scope gives a proof one goal and not nine.
impl Drop for Node {
    #[cycle(drop)]
    fn drop(self) {
        match self {
            Node::Lit(_) => {}
            Node::Path(_path) => {}
            Node::Var(_) => {}
            Node::Def(_) => {}
            Node::One(_, operand) => {
                let _operand = operand.into_inner();
            }
            Node::Two(_, left, right) => {
                let _left = left.into_inner();
                let _right = right.into_inner();
            }
            Node::Range(_, _) => {}
            Node::Set(_items) => {}
            Node::Case(_branches) => {}
        }
    }
}

/// A branch of a case.
#[cycle(tree)]
#[derive(Drop)]
pub struct Branch {
    pub guard: Expr,
    pub body: Expr,
}

impl Expr {
    /// An equal tree.
    #[cycle(copy)]
    pub fn copy(&self, alloc: Global) -> Result<Expr, NoMemory>
        ensures { IfOk result (λ e. e ≡ self.now) }
    {
        let node = self.node.copy(alloc)?;
        Ok(Expr {
            node,
            place: self.place,
        })
    }
}

impl Node {
    #[cycle(copy)]
    pub fn copy(&self, alloc: Global) -> Result<Node, NoMemory>
        ensures { IfOk result (λ n. n ≡ self.now) }
    {
        match self {
            Node::Lit(value) => Ok(Node::Lit(*value)),
            Node::Path(path) => Ok(Node::Path(path.copy(alloc)?)),
            Node::Var(i) => Ok(Node::Var(*i)),
            Node::Def(i) => Ok(Node::Def(*i)),
            Node::One(op, e) => Ok(Node::One(*op, Boxed::new(alloc, e.get().copy(alloc)?)?)),
            Node::Two(op, a, b) => {
                let a = Boxed::new(alloc, a.get().copy(alloc)?)?;
                let b = Boxed::new(alloc, b.get().copy(alloc)?)?;
                Ok(Node::Two(*op, a, b))
            }
            Node::Range(low, high) => Ok(Node::Range(*low, *high)),
            Node::Set(items) => Ok(Node::Set(copy_all(items, alloc)?)),
            Node::Case(branches) => Ok(Node::Case(copy_branches(branches, alloc)?)),
        }
    }
}

#[cycle(copy)]
fn copy_all(items: &Seq<Expr>, alloc: Global) -> Result<Seq<Expr>, NoMemory>
    ensures { IfOk result (λ s. s ≡ items.now) }
{
    let mut copies = Seq::new(alloc);
    for e in items.as_slice() {
        copies.push(e.copy(alloc)?)?;
    }
    Ok(copies)
}

impl Branch {
    #[cycle(copy)]
    pub fn copy(&self, alloc: Global) -> Result<Branch, NoMemory>
        ensures { IfOk result (λ b. b ≡ self.now) }
    {
        let guard = self.guard.copy(alloc)?;
        let body = self.body.copy(alloc)?;
        Ok(Branch { guard, body })
    }
}

#[cycle(copy)]
fn copy_branches(branches: &Seq<Branch>, alloc: Global) -> Result<Seq<Branch>, NoMemory>
    ensures { IfOk result (λ s. s ≡ branches.now) }
{
    let mut copies = Seq::new(alloc);
    for b in branches.as_slice() {
        copies.push(b.copy(alloc)?)?;
    }
    Ok(copies)
}
