ghost use Rattle.std.specs.Prelude.{◌≡◌, ◌++◌, [], map, reverse, length, OnOk};
ghost use Rattle.std.specs.Option.{option_to_list};
ghost use Rattle.cov_stops.specs.Coming as spec;

use crate::counts::argument_defines;
use cov_modules::Modules;
use cov_syntax::{NoMemory, Section, Seq, TypeTree};

/// An instance that is declared and not yet walked.
#[derive(Clone, Copy)]
pub struct PutOff {
    /// The number of its module.
    pub module: usize,
    /// The number of the stop that declares it, and the place of the declaration among that one's sections.
    pub caller: usize,
    pub section: usize,
    /// The place of its own number among the children.
    pub place: usize,
    /// How many of its arguments become DEFINEs.
    pub defines: usize,
}

/// The instance that a section declares.
fn put_off_at(
    modules: &Modules,
    caller: usize,
    section: usize,
    place: usize,
    s: &Section,
) -> Option<PutOff>
    ensures { option_to_list result ≡ spec.put_off_at modules.now caller section place s.now }
{
    match s {
        Section::Decl { kind, .. } => match kind {
            TypeTree::Instance {
                module: from,
                given,
            } => match modules.find(from.name) {
                Some(module) => Some(PutOff {
                    module,
                    caller,
                    section,
                    place,
                    defines: argument_defines(given.as_slice()),
                }),
                None => None,
            },
            TypeTree::Boolean => None,
            TypeTree::List(_) => None,
            TypeTree::Between(_, _) => None,
        },
        Section::Define { .. } => None,
        Section::Assign { .. } => None,
        Section::Cond { .. } => None,
    }
}

/// Puts the instances last that the sections of a stop declare, with a place among the children for each.
pub fn put_off_all(
    modules: &Modules,
    caller: usize,
    sections: &[Section],
    below: &mut Seq<PutOff>,
    children: &mut Seq<u32>,
) -> Result<(), NoMemory>
    requires { below.old ≡ [] }
    ensures below { OnOk result (below.new ≡ spec.put_off_from modules.now caller 0 (length children.old) sections.now) }
    ensures children { OnOk result (children.new ≡ children.old ++ map spec.no_number below.new) }
{
    for (i, s) in sections.iter().enumerate() {
        if let Some(x) = put_off_at(modules, caller, i, children.len(), s) {
            children.push(0)?;
            below.push(x)?;
        }
    }
    Ok(())
}

/// Puts what is put off onto a stack, so that its first one is taken next.
pub fn put_first(below: &Seq<PutOff>, stack: &mut Seq<PutOff>) -> Result<(), NoMemory>
    ensures { OnOk result (stack.new ≡ stack.old ++ reverse below.now) }
{
    for x in below.as_slice().iter().rev().copied() {
        stack.push(x)?;
    }
    Ok(())
}
