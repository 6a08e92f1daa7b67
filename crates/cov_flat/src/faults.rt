ghost use Rattle.std.specs.Prelude.{◌≡◌, map, not};
ghost use Rattle.std.specs.List.{flat_map};
ghost use Rattle.cov_modules.specs.FlatLists.{target_of};
ghost use Rattle.cov_modules.specs.ModuleFaults.{place_if};
ghost use Rattle.cov_modules.specs.NameFaults as faults;
ghost use Rattle.cov_modules.specs.Names.{first};
ghost use Rattle.cov_flat.specs.Reading.{IsReader, IsScoped, stop_at};
ghost use Rattle.cov_flat.specs.Parts.{here};

use crate::reader::Reader;
use crate::unknown::unknown_in;
use cov_paths::Scopes;
use cov_syntax::{Expr, Node, Program, Section, Span};

/// The place of an argument that is a path and names nothing, or of its first path that names no value.
fn unknown_argument(caller: &Reader<'_>, given: &Expr) -> Option<Span>
    requires { IsReader caller.now.p.now caller.now.scopes.now caller.now.number }
    ensures { result ≡ faults.unknown_argument caller.now.p.now (here caller.now.p.now caller.now.number) given.now }
{
    let Node::Path(path) = &given.node else {
        return unknown_in(caller, given);
    };
    if caller.names_nothing(path.as_slice()) {
        Some(given.place)
    } else {
        None
    }
}

/// The first such place in the arguments of an instance.
fn unknown_in_arguments(at: &Reader<'_>) -> Option<Span>
    requires { IsReader at.now.p.now at.now.scopes.now at.now.number }
    ensures { result ≡ first (map (faults.unknown_argument at.now.p.now (stop_at at.now.p.now at.now.number).caller) (stop_at at.now.p.now at.now.number).given) }
{
    let caller = Reader {
        number: at.caller(),
        ..*at
    };
    for given in at.given() {
        if let Some(place) = unknown_argument(&caller, given) {
            return Some(place);
        }
    }
    None
}

/// The place of a target that names no variable.
fn unknown_target(at: &Reader<'_>, target: &Expr) -> Option<Span>
    requires { IsReader at.now.p.now at.now.scopes.now at.now.number }
    ensures { result ≡ place_if (not (faults.is_variable (target_of at.now.p.now (here at.now.p.now at.now.number) target.now))) target.now.place }
{
    match at.variable(target) {
        Some(_) => None,
        None => Some(target.place),
    }
}

/// The place of a section's target that names no variable, or of its first path that names no value.
fn unknown_in_section(at: &Reader<'_>, entry: &Section) -> Option<Span>
    requires { IsReader at.now.p.now at.now.scopes.now at.now.number }
    ensures { result ≡ first (faults.unknown_in_section at.now.p.now (here at.now.p.now at.now.number) entry.now) }
{
    match entry {
        Section::Decl { .. } => None,
        Section::Define { body, .. } => unknown_in(at, body),
        Section::Assign { target, body, .. } => match unknown_target(at, target) {
            Some(place) => Some(place),
            None => unknown_in(at, body),
        },
        Section::Cond { body, .. } => unknown_in(at, body),
    }
}

/// The first such place in the sections of an instance.
fn unknown_in_sections(at: &Reader<'_>) -> Option<Span>
    requires { IsReader at.now.p.now at.now.scopes.now at.now.number }
    ensures { result ≡ first (flat_map (faults.unknown_in_section at.now.p.now (here at.now.p.now at.now.number)) (here at.now.p.now at.now.number).from.sections) }
{
    for entry in at.module().sections.as_slice() {
        if let Some(place) = unknown_in_section(at, entry) {
            return Some(place);
        }
    }
    None
}

/// The first such place in the arguments of an instance and its own entries.
fn unknown_at(at: &Reader<'_>) -> Option<Span>
    requires { IsReader at.now.p.now at.now.scopes.now at.now.number }
    ensures { result ≡ first (faults.unknown_at at.now.p.now (stop_at at.now.p.now at.now.number)) }
{
    match unknown_in_arguments(at) {
        Some(place) => Some(place),
        None => unknown_in_sections(at),
    }
}

/// The place of the first path in the flat walk that names nothing, or no value or variable where one is needed.
pub(crate) fn unknown_name(p: &Program, scopes: &Scopes) -> Option<Span>
    requires { IsScoped p.now scopes.now }
    ensures { result ≡ faults.unknown_name p.now }
{
    for number in 0..scopes.stops().len() {
        if let Some(place) = unknown_at(&Reader { p, scopes, number }) {
            return Some(place);
        }
    }
    None
}
