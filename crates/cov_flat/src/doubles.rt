ghost use Rattle.std.specs.Prelude.{◌≡◌, ◌++◌, [], IfOk, OnOk};
ghost use Rattle.std.specs.List.{flat_map};
ghost use Rattle.cov_modules.specs.NameFaults as faults;
ghost use Rattle.cov_flat.specs.Reading.{IsReader, IsScoped, stop_at, flat_walk, flat_index};
ghost use Rattle.cov_flat.specs.Parts.{here};
ghost use Rattle.cov_flat.specs.Doubles as spec;

use crate::forms::Table;
use crate::reader::Reader;
use cov_flatness::variables_have_places;
use cov_paths::Scopes;
use cov_syntax::{NoMemory, Program, Section, Seq, Span, When};
use std::alloc::Global;

/// An assignment to a variable, by its number.
#[derive(Clone, Copy)]
pub(crate) struct Assigned {
    pub(crate) when: When,
    pub(crate) var: u32,
    pub(crate) place: Span,
}

/// Puts the assignment to a variable that a section is last.
fn push_assigned(
    at: &Reader<'_>,
    entry: &Section,
    found: &mut Seq<Assigned>,
) -> Result<(), NoMemory>
    requires { IsReader at.now.p.now at.now.scopes.now at.now.number }
    ensures { OnOk result (spec.marks at.now.p.now found.new ≡ spec.marks at.now.p.now found.old ++ spec.marks_in at.now.p.now (here at.now.p.now at.now.number) entry.now) }
{
    let Section::Assign { when, target, .. } = entry else {
        return Ok(());
    };
    let Some(var) = at.variable(target) else {
        return Ok(());
    };
    found.push(Assigned {
        when: *when,
        var,
        place: target.place,
    })
}

/// Puts the assignments to variables of an instance last.
fn push_all_assigned(at: &Reader<'_>, found: &mut Seq<Assigned>) -> Result<(), NoMemory>
    requires { IsReader at.now.p.now at.now.scopes.now at.now.number }
    ensures { OnOk result (spec.marks at.now.p.now found.new ≡ spec.marks at.now.p.now found.old ++ spec.marks_of at.now.p.now (stop_at at.now.p.now at.now.number)) }
{
    for entry in at.module().sections.as_slice() {
        push_assigned(at, entry, found)?;
    }
    Ok(())
}

/// The assignments to variables in the order of the flat walk.
fn all_assigned(alloc: Global, p: &Program, scopes: &Scopes) -> Result<Seq<Assigned>, NoMemory>
    requires { IsScoped p.now scopes.now }
    ensures { IfOk result (λ found. spec.marks p.now found ≡ flat_map (spec.marks_of p.now) (flat_walk p.now)) }
{
    let mut found = Seq::new(alloc);
    for number in 0..scopes.stops().len() {
        push_all_assigned(&Reader { p, scopes, number }, &mut found)?;
    }
    Ok(found)
}

/// The place of the first assignment that one before it excludes.
fn double(alloc: Global, assigned: &[Assigned]) -> Result<Option<Span>, NoMemory>
    ensures { IfOk result (λ place. place ≡ spec.double_number [] assigned.now) }
{
    let mut table = Table::new(alloc);
    for a in assigned {
        let forms = table.get(a.var);
        if forms.exclude(a.when) {
            return Ok(Some(a.place));
        }
        table.put(a.var, forms.with(a.when))?;
    }
    Ok(None)
}

/// The place of the first assignment in the flat walk that one before it excludes.
pub(crate) fn double_assign(
    alloc: Global,
    p: &Program,
    scopes: &Scopes,
) -> Result<Option<Span>, NoMemory>
    requires { IsScoped p.now scopes.now }
    ensures { IfOk result (λ place. place ≡ faults.double_assign p.now) }
{
    variables_have_places();
    let assigned = all_assigned(alloc, p, scopes)?;
    double(alloc, assigned.as_slice())
}
