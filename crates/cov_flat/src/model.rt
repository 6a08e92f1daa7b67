ghost use Rattle.std.specs.Prelude.{◌≡◌, ◌≤◌, ◌++◌, IfOk, fold, length, map};
ghost use Rattle.cov_modules.specs.FlatLists.{added, flat_model};
ghost use Rattle.cov_flat.specs.Reading.{IsScoped};
ghost use Rattle.cov_flat.specs.Naming as spec;

use crate::assigns::assigns;
use crate::conditions::conditions;
use crate::definitions::{Definition, definitions};
use crate::naming::{add_definitions, add_variables, number};
use crate::variables::{Variable, variables};
use cov_model::{Define, Model, Var};
use cov_paths::Scopes;
use cov_syntax::{CondKind, Names, NoMemory, Program, Seq, When};
use std::alloc::Global;

/// The variables, named by their numbers.
fn numbered_variables(
    alloc: Global,
    variables: Vec<Variable>,
    names: &Names,
) -> Result<Seq<Var>, NoMemory>
    ensures { IfOk result (λ vars. vars ≡ map (spec.numbered_variable names.now) variables.items) }
{
    let mut vars = Seq::new(alloc);
    for x in variables {
        vars.push(Var {
            name: number(names, x.text.as_slice()),
            values: x.values,
            place: x.place,
            kind_place: x.kind_place,
        })?;
    }
    Ok(vars)
}

/// The DEFINEs, named by their numbers.
fn numbered_definitions(
    alloc: Global,
    definitions: Vec<Definition>,
    names: &Names,
) -> Result<Seq<Define>, NoMemory>
    ensures { IfOk result (λ defines. defines ≡ map (spec.numbered_definition names.now) definitions.items) }
{
    let mut defines = Seq::new(alloc);
    for d in definitions {
        defines.push(Define {
            name: number(names, d.text.as_slice()),
            body: d.body,
            place: d.place,
        })?;
    }
    Ok(defines)
}

/// The names of the program, then the flat names that are not there yet, those of the variables first.
fn all_names(
    names: Names,
    variables: &[Variable],
    definitions: &[Definition],
) -> Result<Names, NoMemory>
    requires names { length names ≤ 1048576 }
    requires variables { length variables.now ≤ 4096 }
    requires definitions { length definitions.now ≤ 4096 }
    ensures { IfOk result (λ all. all ≡ fold added names (map spec.variable_text variables.now ++ map spec.definition_text definitions.now)) }
{
    let mut names = names;
    add_variables(&mut names, variables)?;
    add_definitions(&mut names, definitions)?;
    Ok(names)
}

/// The flat model of a program.
pub(crate) fn model(alloc: Global, p: Program, scopes: &Scopes) -> Result<Model, NoMemory>
    requires { IsScoped p scopes.now }
    ensures { IfOk result (λ m. m ≡ flat_model p) }
{
    let variables = variables(alloc, &p, scopes)?;
    let definitions = definitions(alloc, &p, scopes)?;
    let inits = conditions(alloc, &p, scopes, CondKind::Init)?;
    let invars = conditions(alloc, &p, scopes, CondKind::Invar)?;
    let nows = assigns(alloc, &p, scopes, When::Now)?;
    let firsts = assigns(alloc, &p, scopes, When::First)?;
    let nexts = assigns(alloc, &p, scopes, When::Next)?;
    let trans = conditions(alloc, &p, scopes, CondKind::Trans)?;
    let fair = conditions(alloc, &p, scopes, CondKind::Fair)?;
    let specs = conditions(alloc, &p, scopes, CondKind::Spec)?;
    let names = all_names(p.names, variables.as_slice(), definitions.as_slice())?;
    let vars = numbered_variables(alloc, variables, &names)?;
    let defines = numbered_definitions(alloc, definitions, &names)?;
    Ok(Model {
        names,
        vars,
        defines,
        inits,
        invars,
        nows,
        firsts,
        nexts,
        trans,
        fair,
        specs,
    })
}
