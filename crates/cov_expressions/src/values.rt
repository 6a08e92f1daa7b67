ghost use Rattle.std.specs.Prelude.{◌≡◌, IfOk, IfErr};
ghost use Rattle.cov_ranges.specs.Ranges.{IsExpressionOf, range_of};
ghost use Rattle.cov_model.specs.Kinds.{is_truth};
ghost use Rattle.std.specs.List.{list_all};
ghost use Rattle.cov_space.specs.declared.fault.SpaceFault.TheVariants as fault;
ghost use Rattle.cov_expressions.specs.Parts.{logic_for};

use cov_space::SpaceFault;
use cov_syntax::{Expr, NoMemory, Op2, Seq, Value};
use cov_types::Checked;
use std::alloc::Global;

/// All values of an expression.
pub(crate) fn all_values(alloc: Global, m: &Checked, e: &Expr) -> Result<Seq<Value>, SpaceFault>
    requires { IsExpressionOf m.now e.now }
    ensures ok { IfOk result (λ xs. xs ≡ range_of m.now e.now) }
    ensures err { IfErr result (λ f. f ≡ fault.Memory) }
{
    match m.values(alloc, e) {
        Ok(values) => Ok(values),
        Err(NoMemory) => Err(SpaceFault::Memory),
    }
}

/// Whether all of the values are TRUE or FALSE.
fn are_truths(xs: &[Value]) -> bool
    ensures { result ≡ list_all is_truth xs.now }
{
    xs.iter().all(|x| matches!(x, Value::Bool(_)))
}

/// The operator of logic that compares truths as this one compares values, where all values of both sides are truths.
pub(crate) fn logic_of(op: Op2, xs: &[Value], ys: &[Value]) -> Option<Op2>
    ensures { result ≡ logic_for op xs.now ys.now }
{
    match op {
        Op2::Eq if are_truths(xs) && are_truths(ys) => Some(Op2::Iff),
        Op2::Ne if are_truths(xs) && are_truths(ys) => Some(Op2::Xor),
        _ => None,
    }
}
