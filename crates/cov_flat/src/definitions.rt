ghost use Rattle.std.specs.Prelude.{◌≡◌, ◌++◌, IfOk, OnOk};
ghost use Rattle.std.specs.List.{flat_map};
ghost use Rattle.cov_flat.specs.Reading.{IsReader, IsScoped, stop_at, flat_walk};
ghost use Rattle.cov_flat.specs.Parts.{here};
ghost use Rattle.cov_flat.specs.Entries as spec;

use crate::copy::read;
use crate::path::is_path;
use crate::reader::Reader;
use crate::spelling::flat_text;
use cov_paths::Scopes;
use cov_syntax::{Expr, NoMemory, Program, Section, Span, Spelled, Text};
use std::alloc::Global;

/// A DEFINE with the text of its flat name.
#[derive(Drop)]
pub(crate) struct Definition {
    pub(crate) text: Text,
    pub(crate) body: Expr,
    pub(crate) place: Span,
}

/// Puts the DEFINE that an argument becomes last. A path becomes none.
fn push_argument(
    alloc: Global,
    at: &Reader<'_>,
    formal: Spelled,
    given: &Expr,
    found: &mut Vec<Definition>,
) -> Result<(), NoMemory>
    requires { IsReader at.now.p.now at.now.scopes.now at.now.number }
    ensures { OnOk result (found.new.items ≡ found.old.items ++ spec.argument_in at.now.p.now (stop_at at.now.p.now at.now.number) (formal, given.now)) }
{
    if is_path(given) {
        return Ok(());
    }
    let caller = Reader {
        number: at.caller(),
        ..*at
    };
    let text = flat_text(alloc, at, formal.name)?;
    let body = read(alloc, &caller, given)?;
    found.push(Definition {
        text,
        body,
        place: given.place,
    })?;
    Ok(())
}

/// Puts the DEFINE that the argument of a formal becomes last, where there is the formal.
fn push_argument_at(
    alloc: Global,
    at: &Reader<'_>,
    formals: &[Spelled],
    i: usize,
    given: &Expr,
    found: &mut Vec<Definition>,
) -> Result<(), NoMemory>
    requires { IsReader at.now.p.now at.now.scopes.now at.now.number }
    ensures { OnOk result (found.new.items ≡ found.old.items ++ flat_map (spec.argument_in at.now.p.now (stop_at at.now.p.now at.now.number)) (spec.pair_at formals.now i given.now)) }
{
    match formals.get(i) {
        Some(formal) => push_argument(alloc, at, *formal, given, found),
        None => Ok(()),
    }
}

/// Puts the DEFINEs that the arguments of an instance become last.
fn push_arguments(
    alloc: Global,
    at: &Reader<'_>,
    found: &mut Vec<Definition>,
) -> Result<(), NoMemory>
    requires { IsReader at.now.p.now at.now.scopes.now at.now.number }
    ensures { OnOk result (found.new.items ≡ found.old.items ++ spec.arguments_of at.now.p.now (stop_at at.now.p.now at.now.number)) }
{
    let formals = at.module().formals.as_slice();
    for (i, given) in at.given().iter().enumerate() {
        push_argument_at(alloc, at, formals, i, given, found)?;
    }
    Ok(())
}

/// Puts the DEFINE that a section declares last.
fn push_definition(
    alloc: Global,
    at: &Reader<'_>,
    entry: &Section,
    found: &mut Vec<Definition>,
) -> Result<(), NoMemory>
    requires { IsReader at.now.p.now at.now.scopes.now at.now.number }
    ensures { OnOk result (found.new.items ≡ found.old.items ++ spec.definitions_in at.now.p.now (here at.now.p.now at.now.number) entry.now) }
{
    let Section::Define { name, body } = entry else {
        return Ok(());
    };
    let text = flat_text(alloc, at, name.name)?;
    let body = read(alloc, at, body)?;
    found.push(Definition {
        text,
        body,
        place: name.place,
    })?;
    Ok(())
}

/// Puts the DEFINEs of an instance last: those of its arguments, then its own.
fn push_definitions(
    alloc: Global,
    at: &Reader<'_>,
    found: &mut Vec<Definition>,
) -> Result<(), NoMemory>
    requires { IsReader at.now.p.now at.now.scopes.now at.now.number }
    ensures { OnOk result (found.new.items ≡ found.old.items ++ spec.definitions_of at.now.p.now (stop_at at.now.p.now at.now.number)) }
{
    push_arguments(alloc, at, found)?;
    for entry in at.module().sections.as_slice() {
        push_definition(alloc, at, entry, found)?;
    }
    Ok(())
}

/// The DEFINEs in the order of the flat walk.
pub(crate) fn definitions(
    alloc: Global,
    p: &Program,
    scopes: &Scopes,
) -> Result<Vec<Definition>, NoMemory>
    requires { IsScoped p.now scopes.now }
    ensures { IfOk result (λ found. found.items ≡ flat_map (spec.definitions_of p.now) (flat_walk p.now)) }
{
    let mut found = Vec::new(alloc);
    for number in 0..scopes.stops().len() {
        push_definitions(alloc, &Reader { p, scopes, number }, &mut found)?;
    }
    Ok(found)
}
