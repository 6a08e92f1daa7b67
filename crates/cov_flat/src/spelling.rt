ghost use Rattle.std.specs.Prelude.{◌≡◌, ◌++◌, ◌∷◌, [], IfOk, reverse};
ghost use Rattle.cov_modules.specs.Names as spec;
ghost use Rattle.cov_flat.specs.Reading.{IsReader};
ghost use Rattle.cov_flat.specs.Parts.{here};

use crate::reader::Reader;
use cov_syntax::{Names, NoMemory, Seq, Text};
use std::alloc::Global;

/// The flat name of what the instance has under a name: its parts, the last one first.
fn parts(alloc: Global, at: &Reader<'_>, own: u32) -> Result<Seq<u32>, NoMemory>
    requires { IsReader at.now.p.now at.now.scopes.now at.now.number }
    ensures { IfOk result (λ parts. reverse parts ≡ (here at.now.p.now at.now.number).name ++ own ∷ []) }
{
    let mut parts = Seq::new(alloc);
    parts.push(own)?;
    let mut number = at.number;
    while number > 0 {
        let inner = Reader { number, ..*at };
        parts.push(inner.own_name())?;
        number = inner.caller();
    }
    Ok(parts)
}

/// The text of a name, and nothing where it is not there.
fn text(names: &Names, i: u32) -> &[u8]
    ensures { result.now ≡ spec.text names.now i }
{
    if i < names.len() { names.text(i) } else { &[] }
}

/// The text of a dotted name, whose last part comes first.
fn joined(alloc: Global, names: &Names, mut parts: Seq<u32>) -> Result<Text, NoMemory>
    ensures { IfOk result (λ t. t ≡ spec.spelled names.now (reverse parts)) }
{
    let mut found = Seq::new(alloc);
    let Some(first) = parts.pop() else {
        return Ok(found);
    };
    found.extend_from_slice(text(names, first))?;
    while let Some(i) = parts.pop() {
        found.push(b'.')?;
        found.extend_from_slice(text(names, i))?;
    }
    Ok(found)
}

/// The text of the flat name of what the instance has under a name.
pub(crate) fn flat_text(alloc: Global, at: &Reader<'_>, own: u32) -> Result<Text, NoMemory>
    requires { IsReader at.now.p.now at.now.scopes.now at.now.number }
    ensures { IfOk result (λ t. t ≡ spec.spelled at.now.p.now.names ((here at.now.p.now at.now.number).name ++ own ∷ [])) }
{
    let parts = parts(alloc, at, own)?;
    joined(alloc, &at.p.names, parts)
}
