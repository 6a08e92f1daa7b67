ghost use Rattle.std.specs.Prelude.{◌≡◌, ◌++◌, OnOk};
ghost use Rattle.std.specs.List.{flat_map};
ghost use Rattle.std.specs.Option.{option_to_list};
ghost use Rattle.cov_modules.specs.Modules as spec;

use cov_syntax::{NoMemory, Section, Seq, Spelled};

/// The name that a section declares.
fn declared(s: &Section) -> Option<Spelled>
    ensures { option_to_list result ≡ spec.declared s.now }
{
    match s {
        Section::Decl { name, .. } => Some(*name),
        Section::Define { name, .. } => Some(*name),
        Section::Assign { .. } => None,
        Section::Cond { .. } => None,
    }
}

/// Puts the names last that the sections declare.
pub fn put_declared(sections: &[Section], names: &mut Seq<Spelled>) -> Result<(), NoMemory>
    ensures { OnOk result (names.new ≡ names.old ++ flat_map spec.declared sections.now) }
{
    for s in sections {
        if let Some(name) = declared(s) {
            names.push(name)?;
        }
    }
    Ok(())
}
