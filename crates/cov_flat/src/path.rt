ghost use Rattle.std.specs.Prelude.{◌≡◌, is_some};
ghost use Rattle.cov_modules.specs.Things.{path_of};

use cov_syntax::{Expr, Node};

/// Whether an expression is a path.
pub(crate) fn is_path(e: &Expr) -> bool
    ensures { result ≡ is_some (path_of e.now) }
{
    match e.node {
        Node::Path(_) => true,
        Node::Lit(_) => false,
        Node::Var(_) => false,
        Node::Def(_) => false,
        Node::One(_, _) => false,
        Node::Two(_, _, _) => false,
        Node::Range(_, _) => false,
        Node::Set(_) => false,
        Node::Case(_) => false,
    }
}
