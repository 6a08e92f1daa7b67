ghost use Rattle.std.specs.Prelude.{◌≡◌, IfOk};
ghost use Rattle.cov_flat.specs.Entries as spec;

use cov_syntax::{NoMemory, Seq, TypeTree, Value};
use std::alloc::Global;

/// How many integers of a range are listed.
const LISTED: usize = 1025;

/// The integers of a range, ascending: the first of them, where there are many.
fn range(alloc: Global, low: i32, high: i32) -> Result<Seq<Value>, NoMemory>
    ensures { IfOk result (λ values. values ≡ spec.range_from low high 1025) }
{
    let mut values = Seq::new(alloc);
    let mut next = i64::from(low);
    while next <= i64::from(high) && values.len() < LISTED {
        values.push(Value::Int(next as i32))?;
        next += 1;
    }
    Ok(values)
}

/// The values of a variable of this type. An instance is no variable.
pub(crate) fn variable_values(
    alloc: Global,
    kind: &TypeTree,
) -> Result<Option<Seq<Value>>, NoMemory>
    ensures { IfOk result (λ values. values ≡ spec.variable_values kind.now) }
{
    match kind {
        TypeTree::Boolean => {
            let mut values = Seq::new(alloc);
            values.push(Value::Bool(false))?;
            values.push(Value::Bool(true))?;
            Ok(Some(values))
        }
        TypeTree::List(values) => Ok(Some(values.copy(alloc)?)),
        TypeTree::Between(low, high) => Ok(Some(range(alloc, *low, *high)?)),
        TypeTree::Instance { .. } => Ok(None),
    }
}
