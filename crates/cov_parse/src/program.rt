ghost use Rattle.std.specs.Prelude.{◌≡◌, Ok, Err, IfOk, MatchResult, length};
ghost use Rattle.cov_first_fault.specs.FirstFault.{IsFirstFault};
ghost use Rattle.cov_syntax.specs.declared.fault.ModelFault.{ModelFault};
ghost use Rattle.cov_syntax.specs.declared.fault.Refused.TheVariants as Refused;
ghost use Rattle.cov_syntax.specs.declared.program.Program.{Program};
ghost use Rattle.cov_syntax.specs.Lexemes.{lexemes_of};
ghost use Rattle.cov_syntax.specs.Limits.{IsShallow};
ghost use Rattle.cov_syntax.specs.Programs.{ReadsText};
ghost use Rattle.cov_syntax.specs.Tokens as spec;

use crate::depth::first_deep;
use crate::fault::{deep_fault, refused};
use crate::meanings::lexemes;
use crate::modules::program;
use cov_syntax::{NoMemory, Program, Refused, Seq, Token};
use std::alloc::Global;

/// The program that the tokens of a text are.
///
/// The fault of any other text is the first one. At one token it is LeftOut or Syntax where no program goes on with
/// it, else TooDeep, else RangeTooWide; a text that ends too early has Syntax at its end.
pub fn parse(alloc: Global, text: &[u8], tokens: &Seq<Token>) -> Result<Program, Refused>
    requires { spec.tokens text.now ≡ Ok tokens.now }
    ensures found { IfOk result (λ p. ReadsText text.now tokens.now p × IsShallow (lexemes_of text.now tokens.now)) }
    ensures fault { (f : ModelFault) → result ≡ Err (Refused.Fault f)
        → IsFirstFault (length text.now) (lexemes_of text.now tokens.now) f }
    // A program that reads the text is answered, unless memory runs out.
    ensures only { (p : Program) → ReadsText text.now tokens.now p → IsShallow (lexemes_of text.now tokens.now)
        → MatchResult result (λ answer. answer ≡ p) (λ e. e ≡ Refused.Memory) }
{
    let (names, lexemes) = lexemes(alloc, text, tokens.as_slice())?;
    let lexemes = lexemes.as_slice();
    let deep = match first_deep(alloc, lexemes) {
        Ok(deep) => deep,
        Err(_) => return Err(Refused::Memory),
    };
    if let Some(left) = deep {
        return Err(deep_fault(alloc, text, lexemes, left));
    }
    match program(alloc, lexemes) {
        Ok(modules) => Ok(Program { names, modules }),
        Err(error) => Err(refused(text, lexemes, error)),
    }
}
