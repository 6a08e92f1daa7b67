ghost use Rattle.std.specs.Prelude.{◌≡◌, ◌++◌, IfOk, OnOk};
ghost use Rattle.std.specs.List.{flat_map};
ghost use Rattle.cov_modules.specs.FlatLists.{same_kind};
ghost use Rattle.cov_flat.specs.Reading.{IsReader, IsScoped, stop_at, flat_walk};
ghost use Rattle.cov_flat.specs.Parts.{here};
ghost use Rattle.cov_flat.specs.Entries as spec;

use crate::copy::read;
use crate::reader::Reader;
use cov_paths::Scopes;
use cov_syntax::{CondKind, Expr, NoMemory, Program, Section, Seq};
use std::alloc::Global;

/// Whether both are the same kind of condition.
fn is_same_kind(a: CondKind, b: CondKind) -> bool
    ensures { result ≡ same_kind a b }
{
    match (a, b) {
        (CondKind::Init, CondKind::Init) => true,
        (CondKind::Invar, CondKind::Invar) => true,
        (CondKind::Trans, CondKind::Trans) => true,
        (CondKind::Fair, CondKind::Fair) => true,
        (CondKind::Spec, CondKind::Spec) => true,
        _ => false,
    }
}

/// Puts the condition that a section is last, if it is of this kind.
fn push_condition(
    alloc: Global,
    at: &Reader<'_>,
    kind: CondKind,
    entry: &Section,
    found: &mut Seq<Expr>,
) -> Result<(), NoMemory>
    requires { IsReader at.now.p.now at.now.scopes.now at.now.number }
    ensures { OnOk result (found.new ≡ found.old ++ spec.conditions_in at.now.p.now (here at.now.p.now at.now.number) kind entry.now) }
{
    let Section::Cond { kind: own, body } = entry else {
        return Ok(());
    };
    if !is_same_kind(kind, *own) {
        return Ok(());
    }
    found.push(read(alloc, at, body)?)
}

/// Puts the conditions of this kind of an instance last.
fn push_conditions(
    alloc: Global,
    at: &Reader<'_>,
    kind: CondKind,
    found: &mut Seq<Expr>,
) -> Result<(), NoMemory>
    requires { IsReader at.now.p.now at.now.scopes.now at.now.number }
    ensures { OnOk result (found.new ≡ found.old ++ spec.conditions_of at.now.p.now kind (stop_at at.now.p.now at.now.number)) }
{
    for entry in at.module().sections.as_slice() {
        push_condition(alloc, at, kind, entry, found)?;
    }
    Ok(())
}

/// The conditions of this kind in the order of the flat walk.
pub(crate) fn conditions(
    alloc: Global,
    p: &Program,
    scopes: &Scopes,
    kind: CondKind,
) -> Result<Seq<Expr>, NoMemory>
    requires { IsScoped p.now scopes.now }
    ensures { IfOk result (λ found. found ≡ flat_map (spec.conditions_of p.now kind) (flat_walk p.now)) }
{
    let mut found = Seq::new(alloc);
    for number in 0..scopes.stops().len() {
        push_conditions(alloc, &Reader { p, scopes, number }, kind, &mut found)?;
    }
    Ok(found)
}
