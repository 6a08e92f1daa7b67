ghost use Rattle.std.specs.Prelude.{◌≡◌, ◌++◌, IfOk, OnOk};
ghost use Rattle.std.specs.List.{flat_map};
ghost use Rattle.cov_flat.specs.Reading.{IsReader, IsScoped, stop_at, flat_walk};
ghost use Rattle.cov_flat.specs.Parts.{here};
ghost use Rattle.cov_flat.specs.Entries as spec;

use crate::reader::Reader;
use crate::spelling::flat_text;
use crate::values::variable_values;
use cov_paths::Scopes;
use cov_syntax::{NoMemory, Program, Section, Seq, Span, Text, Value};
use std::alloc::Global;

/// A variable with the text of its flat name.
#[derive(Drop)]
pub(crate) struct Variable {
    pub(crate) text: Text,
    pub(crate) values: Seq<Value>,
    pub(crate) place: Span,
    pub(crate) kind_place: Span,
}

/// Puts the variable that a section declares last.
fn push_variable(
    alloc: Global,
    at: &Reader<'_>,
    entry: &Section,
    found: &mut Vec<Variable>,
) -> Result<(), NoMemory>
    requires { IsReader at.now.p.now at.now.scopes.now at.now.number }
    ensures { OnOk result (found.new.items ≡ found.old.items ++ spec.variables_in at.now.p.now (here at.now.p.now at.now.number).name entry.now) }
{
    let Section::Decl { name, kind, place } = entry else {
        return Ok(());
    };
    let Some(values) = variable_values(alloc, kind)? else {
        return Ok(());
    };
    let text = flat_text(alloc, at, name.name)?;
    found.push(Variable {
        text,
        values,
        place: name.place,
        kind_place: *place,
    })?;
    Ok(())
}

/// Puts the variables of an instance last.
fn push_variables(alloc: Global, at: &Reader<'_>, found: &mut Vec<Variable>) -> Result<(), NoMemory>
    requires { IsReader at.now.p.now at.now.scopes.now at.now.number }
    ensures { OnOk result (found.new.items ≡ found.old.items ++ spec.variables_of at.now.p.now (stop_at at.now.p.now at.now.number)) }
{
    for entry in at.module().sections.as_slice() {
        push_variable(alloc, at, entry, found)?;
    }
    Ok(())
}

/// The variables in the order of the flat walk.
pub(crate) fn variables(
    alloc: Global,
    p: &Program,
    scopes: &Scopes,
) -> Result<Vec<Variable>, NoMemory>
    requires { IsScoped p.now scopes.now }
    ensures { IfOk result (λ found. found.items ≡ flat_map (spec.variables_of p.now) (flat_walk p.now)) }
{
    let mut found = Vec::new(alloc);
    for number in 0..scopes.stops().len() {
        push_variables(alloc, &Reader { p, scopes, number }, &mut found)?;
    }
    Ok(found)
}
