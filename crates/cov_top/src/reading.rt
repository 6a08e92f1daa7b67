ghost use Rattle.std.specs.Prelude.{◌≡◌, IfOk, IfErr};
ghost use Rattle.cov_modules.specs.Conditions.{IsFlattenable};
ghost use Rattle.cov_top.specs.Accepting.{IsAcceptedAs, IsReadAs, TellsProgramFault};
ghost use Rattle.cov_top.specs.Reading.{IsTextFault};

use cov_flat::flatten;
use cov_lex::lex;
use cov_parse::parse;
use cov_programs::flattenable;
use cov_syntax::{ModelFault, Program, Refused};
use cov_types::{Checked, check_kinds};
use std::alloc::Global;

/// The model that a program is accepted as: flattened, and its kinds settled.
fn accept(alloc: Global, p: Program) -> Result<Checked, Refused>
    requires { IsFlattenable p }
    ensures ok { IfOk result (IsAcceptedAs p) }
    ensures err { IfErr result (TellsProgramFault p) }
{
    let model = flatten(alloc, p)?;
    check_kinds(alloc, model)
}

/// The model that a text is accepted as.
pub(crate) fn read_model(alloc: Global, text: &[u8]) -> Result<Checked, Refused>
    ensures ok { IfOk result (IsReadAs text.now) }
    ensures fault { (f : ModelFault) → result ≡ Err (Refused.Fault f) → IsTextFault text.now f }
{
    let tokens = lex(alloc, text)?;
    let program = parse(alloc, text, &tokens)?;
    flattenable();
    accept(alloc, program)
}
