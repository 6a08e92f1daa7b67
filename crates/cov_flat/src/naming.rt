ghost use Rattle.std.specs.Prelude.{◌≡◌, ◌+◌, ◌-◌, ◌<◌, ◌≤◌, ◌^◌, fold, length, map, OnOk};
ghost use Rattle.cov_modules.specs.FlatLists.{added, number_of};
ghost use Rattle.cov_syntax.specs.Texts.{IsDistinctTexts};
ghost use Rattle.cov_flat.specs.Naming as spec;

use crate::definitions::Definition;
use crate::variables::Variable;
use cov_syntax::{Names, NoMemory};

/// No text stands twice among names.
pub(crate) fn are_distinct(names: &Names)
    ensures { IsDistinctTexts names.now }
{
    let _ = names.len();
}

/// Puts a text last where it is not there yet.
fn add(names: &mut Names, text: &[u8]) -> Result<(), NoMemory>
    requires { length names.old < 2 ^ 32 - 1 }
    ensures { OnOk result (names.new ≡ added names.old text.now) }
{
    names.add(text)?;
    Ok(())
}

/// Puts the flat names of the variables last that are not there yet.
pub(crate) fn add_variables(names: &mut Names, variables: &[Variable]) -> Result<(), NoMemory>
    requires { length names.old + length variables.now < 2 ^ 32 - 1 }
    ensures names { OnOk result (names.new ≡ fold added names.old (map spec.variable_text variables.now)) }
    ensures few { OnOk result (length names.new ≤ length names.old + length variables.now) }
{
    for x in variables {
        add(names, x.text.as_slice())?;
    }
    Ok(())
}

/// Puts the flat names of the DEFINEs last that are not there yet.
pub(crate) fn add_definitions(names: &mut Names, definitions: &[Definition]) -> Result<(), NoMemory>
    requires { length names.old + length definitions.now < 2 ^ 32 - 1 }
    ensures { OnOk result (names.new ≡ fold added names.old (map spec.definition_text definitions.now)) }
{
    for d in definitions {
        add(names, d.text.as_slice())?;
    }
    Ok(())
}

/// The number of a text, and 0 where it is not there.
pub(crate) fn number(names: &Names, text: &[u8]) -> u32
    ensures { result ≡ number_of names.now text.now }
{
    are_distinct(names);
    names.find(text).unwrap_or(0)
}
