ghost use Rattle.std.specs.Prelude.{◌≡◌, IfOk};
ghost use Rattle.cov_model.specs.Flat.{IsFlat};
ghost use Rattle.cov_model.specs.WellFormed.{IsWellFormed};
ghost use Rattle.cov_modules.specs.Conditions.{IsFlattenable};

use cov_flat::flatten;
use cov_lex::lex;
use cov_model::Model;
use cov_parse::parse;
use cov_programs::flattenable;
use cov_syntax::{Program, Refused};
use cov_types::{Checked, check_kinds};
use std::alloc::Global;

/// The program of a text.
pub(crate) fn program(alloc: Global, text: &[u8]) -> Result<Program, Refused>
    ensures { IfOk result (λ p. IsFlattenable p) }
{
    flattenable();
    let tokens = lex(alloc, text)?;
    parse(alloc, text, &tokens)
}

/// The flat model of a text.
pub(crate) fn flat_model(alloc: Global, text: &[u8]) -> Result<Model, Refused>
    ensures { IfOk result (λ m. IsFlat m) }
{
    flatten(alloc, program(alloc, text)?)
}

/// The accepted model of a text.
pub(crate) fn checked_model(alloc: Global, text: &[u8]) -> Result<Checked, Refused>
    ensures { IfOk result (λ m. IsWellFormed m) }
{
    let m = check_kinds(alloc, flat_model(alloc, text)?)?;
    let _model = m.model();
    Ok(m)
}
