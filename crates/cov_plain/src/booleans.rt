//! Sets of states put together by the Boolean operators.

ghost use Rattle.std.specs.Prelude.{◌≡◌, ◌⊎◌, length, IfOk};
ghost use Rattle.cov_plain.specs.Sets.{In, IsSetOf};

use std::alloc::{AllocError, Global};

/// All of the states below `size`.
pub(crate) fn whole(alloc: Global, size: usize) -> Result<Vec<bool>, AllocError>
    ensures { IfOk result (λ r. IsSetOf size r.items (λ v. Unit {0})) }
{
    let mut result = Vec::new(alloc);
    for v in 0..size {
        result.push(true)?;
    }
    Ok(result)
}

/// The states outside the set.
pub(crate) fn outside(alloc: Global, set: &[bool]) -> Result<Vec<bool>, AllocError>
    ensures { IfOk result (λ r. IsSetOf (length set.now) r.items (λ v. ¬ In set.now v)) }
{
    let mut result = Vec::new(alloc);
    for v in 0..set.len() {
        result.push(!set[v])?;
    }
    Ok(result)
}

/// The states that are in both sets.
pub(crate) fn both(alloc: Global, left: &[bool], right: &[bool]) -> Result<Vec<bool>, AllocError>
    requires { length left.now ≡ length right.now }
    ensures { IfOk result (λ r. IsSetOf (length left.now) r.items
        (λ v. In left.now v × In right.now v)) }
{
    let mut result = Vec::new(alloc);
    for v in 0..left.len() {
        result.push(left[v] && right[v])?;
    }
    Ok(result)
}

/// The states that are in one of the sets.
pub(crate) fn either(alloc: Global, left: &[bool], right: &[bool]) -> Result<Vec<bool>, AllocError>
    requires { length left.now ≡ length right.now }
    ensures { IfOk result (λ r. IsSetOf (length left.now) r.items
        (λ v. In left.now v ⊎ In right.now v)) }
{
    let mut result = Vec::new(alloc);
    for v in 0..left.len() {
        result.push(left[v] || right[v])?;
    }
    Ok(result)
}

/// The states at which the one set implies the other.
pub(crate) fn implied(alloc: Global, left: &[bool], right: &[bool]) -> Result<Vec<bool>, AllocError>
    requires { length left.now ≡ length right.now }
    ensures { IfOk result (λ r. IsSetOf (length left.now) r.items
        (λ v. In left.now v → In right.now v)) }
{
    let mut result = Vec::new(alloc);
    for v in 0..left.len() {
        result.push(!left[v] || right[v])?;
    }
    Ok(result)
}
