ghost use Rattle.std.specs.Prelude.{◌≡◌, ◌≤◌, ◌+◌, ◌<◌, ℕ, map, IfOk, OnOk, Option, None, Some, if◌then◌else◌, ◌==◌};
ghost use Rattle.std.specs.Option.{option_or};
ghost use Rattle.std.specs.Ordering.{nat_cmp};
ghost use Rattle.std.specs.BTreeMap.{get};
ghost use Rattle.cov_syntax.specs.declared.program.Spelled.{Spelled};
ghost use Rattle.cov_modules.specs.Names.{place_of};
ghost use Rattle.cov_paths.specs.Items as spec;

use crate::item::{Item, Ranks};
use cov_syntax::{ModuleTree, NoMemory, Section, Spelled, TypeTree};
use std::alloc::Global;
use std::collections::BTreeMap;

/// The formals of a module by their names, each with its place among them, and what the module declares under its names.
#[derive(Drop)]
pub(crate) struct Scope {
    formals: BTreeMap<u32, usize>,
    items: BTreeMap<u32, Item>,
}

/// Puts a value under a name, where none stands there yet.
fn put_first<V: Drop>(values: &mut BTreeMap<u32, V>, name: u32, value: V) -> Result<(), NoMemory>
    ensures { OnOk result ((i : ℕ) → get nat_cmp values.new i ≡ option_or (get nat_cmp values.old i) (if name == i then Some value else None)) }
{
    if !values.contains_key(&name) {
        values.insert(name, value)?;
    }
    Ok(())
}

/// Each name of a formal with the first place where it stands.
fn formal_places(alloc: Global, formals: &[Spelled]) -> Result<BTreeMap<u32, usize>, NoMemory>
    ensures { IfOk result (λ places. (i : ℕ) → get nat_cmp places i ≡ place_of (map (λ (f : Spelled). f.name) formals.now) i) }
{
    let mut places = BTreeMap::new(alloc);
    for (place, formal) in formals.iter().enumerate() {
        put_first(&mut places, formal.name, place)?;
    }
    Ok(places)
}

/// Puts what a section declares, behind so many of each sort, where its name stands for nothing yet.
fn put_section(
    items: &mut BTreeMap<u32, Item>,
    ranks: Ranks,
    s: &Section,
) -> Result<Ranks, NoMemory>
    requires variables { ranks.variables < usize.MAX }
    requires defines { ranks.defines < usize.MAX }
    requires instances { ranks.instances < usize.MAX }
    ensures put { IfOk result (λ after. (i : ℕ) → (rest : Option Item) → option_or (get nat_cmp items.new i) (spec.behind after rest) ≡ option_or (get nat_cmp items.old i) (spec.behind ranks (spec.item_before s.now i rest))) }
    ensures variables { IfOk result (λ after. after.variables ≤ ranks.variables + 1) }
    ensures defines { IfOk result (λ after. after.defines ≤ ranks.defines + 1) }
    ensures instances { IfOk result (λ after. after.instances ≤ ranks.instances + 1) }
{
    match s {
        Section::Decl { name, kind, .. } => match kind {
            TypeTree::Instance { .. } => {
                put_first(items, name.name, Item::Instance(ranks.instances))?;
                Ok(Ranks {
                    instances: ranks.instances + 1,
                    ..ranks
                })
            }
            TypeTree::Boolean | TypeTree::List(_) | TypeTree::Between(_, _) => {
                put_first(items, name.name, Item::Variable(ranks.variables))?;
                Ok(Ranks {
                    variables: ranks.variables + 1,
                    ..ranks
                })
            }
        },
        Section::Define { name, .. } => {
            put_first(items, name.name, Item::Define(ranks.defines))?;
            Ok(Ranks {
                defines: ranks.defines + 1,
                ..ranks
            })
        }
        Section::Assign { .. } => Ok(ranks),
        Section::Cond { .. } => Ok(ranks),
    }
}

/// What the sections declare under their names.
fn items(alloc: Global, sections: &[Section]) -> Result<BTreeMap<u32, Item>, NoMemory>
    ensures { IfOk result (λ items. (i : ℕ) → get nat_cmp items i ≡ spec.item_in sections.now i) }
{
    let mut items = BTreeMap::new(alloc);
    let mut ranks = Ranks {
        variables: 0,
        defines: 0,
        instances: 0,
    };
    for s in sections {
        ranks = put_section(&mut items, ranks, s)?;
    }
    Ok(items)
}

impl Scope {
    /// The names of a module.
    pub(crate) fn of(alloc: Global, m: &ModuleTree) -> Result<Scope, NoMemory>
        ensures { IfOk result (spec.IsScopeOf m.now) }
    {
        let formals = formal_places(alloc, m.formals.as_slice())?;
        let items = items(alloc, m.sections.as_slice())?;
        Ok(Scope { formals, items })
    }

    /// The place of the first formal of this name.
    pub(crate) fn formal(&self, name: u32) -> Option<usize>
        ensures { result ≡ get nat_cmp self.now.formals name }
    {
        self.formals.get(&name).copied()
    }

    /// What the module declares under this name.
    pub(crate) fn item(&self, name: u32) -> Option<Item>
        ensures { result ≡ get nat_cmp self.now.items name }
    {
        self.items.get(&name).copied()
    }
}
