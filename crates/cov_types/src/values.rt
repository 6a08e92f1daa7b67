ghost use Rattle.cov_model.specs.Types.{has_twice};
ghost use Rattle.cov_ranges.specs.Ranges.{IsExpressionOf, ListsAll, range_of};
ghost use Rattle.std.specs.Prelude.{IfOk, IsFalse, length, ◌≡◌, ◌≤◌};

use crate::checked::Checked;
use cov_syntax::{Expr, NoMemory, Seq, Value};
use cov_walk::own_kind;
use std::alloc::Global;

impl Checked {
    /// The values of the own kind of an expression of the model or of a part of one, or of the literal TRUE or FALSE.
    /// Each value and each choice of the expression in typed states is among them, under every flip.
    pub fn values(&self, alloc: Global, e: &Expr) -> Result<Seq<Value>, NoMemory>
        requires { IsExpressionOf self.now e.now }
        ensures listed { IfOk result (λ xs. xs ≡ range_of self.now e.now) }
        ensures once { IfOk result (λ xs. IsFalse (has_twice xs)) }
        ensures few { IfOk result (λ xs. length xs ≤ 1024) }
        ensures all { IfOk result (λ xs. ListsAll self.now e.now xs) }
    {
        let kind = own_kind(alloc, &self.kinds, e)?;
        kind.values(alloc)
    }
}
