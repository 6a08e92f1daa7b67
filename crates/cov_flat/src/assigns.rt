ghost use Rattle.std.specs.Prelude.{◌≡◌, ◌++◌, IfOk, OnOk};
ghost use Rattle.std.specs.List.{flat_map};
ghost use Rattle.cov_modules.specs.FlatLists.{same_when};
ghost use Rattle.cov_flat.specs.Reading.{IsReader, IsScoped, stop_at, flat_walk};
ghost use Rattle.cov_flat.specs.Parts.{here};
ghost use Rattle.cov_flat.specs.Entries as spec;

use crate::copy::read;
use crate::reader::Reader;
use cov_model::Assign;
use cov_paths::Scopes;
use cov_syntax::{NoMemory, Program, Section, Seq, When};
use std::alloc::Global;

/// Whether both are the same form of assignment.
fn is_same_when(a: When, b: When) -> bool
    ensures { result ≡ same_when a b }
{
    match (a, b) {
        (When::Now, When::Now) => true,
        (When::First, When::First) => true,
        (When::Next, When::Next) => true,
        _ => false,
    }
}

/// Puts the assignment that a section is last, if it is of this form.
fn push_assign(
    alloc: Global,
    at: &Reader<'_>,
    form: When,
    entry: &Section,
    found: &mut Seq<Assign>,
) -> Result<(), NoMemory>
    requires { IsReader at.now.p.now at.now.scopes.now at.now.number }
    ensures { OnOk result (found.new ≡ found.old ++ spec.assigns_in at.now.p.now (here at.now.p.now at.now.number) form entry.now) }
{
    let Section::Assign { when, target, body } = entry else {
        return Ok(());
    };
    if !is_same_when(form, *when) {
        return Ok(());
    }
    let Some(var) = at.variable(target) else {
        return Ok(());
    };
    let body = read(alloc, at, body)?;
    found.push(Assign {
        var,
        body,
        place: target.place,
    })
}

/// Puts the assignments of this form of an instance last.
fn push_assigns(
    alloc: Global,
    at: &Reader<'_>,
    form: When,
    found: &mut Seq<Assign>,
) -> Result<(), NoMemory>
    requires { IsReader at.now.p.now at.now.scopes.now at.now.number }
    ensures { OnOk result (found.new ≡ found.old ++ spec.assigns_of at.now.p.now form (stop_at at.now.p.now at.now.number)) }
{
    for entry in at.module().sections.as_slice() {
        push_assign(alloc, at, form, entry, found)?;
    }
    Ok(())
}

/// The assignments of this form in the order of the flat walk.
pub(crate) fn assigns(
    alloc: Global,
    p: &Program,
    scopes: &Scopes,
    form: When,
) -> Result<Seq<Assign>, NoMemory>
    requires { IsScoped p.now scopes.now }
    ensures { IfOk result (λ found. found ≡ flat_map (spec.assigns_of p.now form) (flat_walk p.now)) }
{
    let mut found = Seq::new(alloc);
    for number in 0..scopes.stops().len() {
        push_assigns(alloc, &Reader { p, scopes, number }, form, &mut found)?;
    }
    Ok(found)
}
