ghost use Rattle.std.specs.Prelude.{◌≡◌, ◌+◌, ◌++◌, ◌↔◌, [], false, Bool, length, IfOk, IfErr, OnOk};
ghost use Rattle.cov_space.specs.Answers.{IsCallFault};
ghost use Rattle.cov_hold.specs.Prepared.{IsPrepared};
ghost use Rattle.cov_jobs.specs.Specifications.{NoFairInitial, fair_line, head, none_line};

use cov_fields::is_empty;
use cov_report::{no_fair_line, no_specs_line};
use cov_space::SpaceFault;
use cov_sym::Sys;
use cov_syntax::{Expr, NoMemory, Seq, Text};
use cov_types::Checked;

/// Whether some initial state starts a fair lasso.
fn has_fair_initial(m: &Checked, sys: &mut Sys) -> Result<bool, SpaceFault>
    requires prepared { IsPrepared m.now sys.old }
    requires alone { length sys.old.space.sets ≡ sys.old.built + 1 }
    ensures ok { IfOk result (λ fair. (fair ≡ false) ↔ NoFairInitial m.now) }
    ensures kept { OnOk result (sys.new ≡ sys.old) }
    ensures same { sys.new ≡ record sys.old { space = sys.new.space } }
    ensures err { IfErr result (λ e. IsCallFault sys.old.space sys.new.space e) }
{
    let n = sys.sets();
    let initial = sys.initial();
    let good = sys.good();
    sys.space.and(initial, good)?;
    let fair = !is_empty(&mut sys.space, n);
    sys.space.cut(n);
    Ok(fair)
}

/// Puts the line on initial states, where none starts a fair lasso.
fn put_fair_line(fair: bool, into: &mut Text) -> Result<(), NoMemory>
    ensures { OnOk result (into.new ≡ into.old ++ fair_line fair) }
{
    match fair {
        true => Ok(()),
        false => no_fair_line(into),
    }
}

/// Puts the line on specifications, where there are none.
fn put_none_line(specs: &Seq<Expr>, into: &mut Text) -> Result<(), NoMemory>
    ensures { OnOk result (into.new ≡ into.old ++ none_line specs.now) }
{
    match specs.as_slice() {
        [] => no_specs_line(into),
        _ => Ok(()),
    }
}

/// Puts the head of a report on specifications.
pub(crate) fn put_head(m: &Checked, sys: &mut Sys, into: &mut Text) -> Result<(), SpaceFault>
    requires prepared { IsPrepared m.now sys.old }
    requires alone { length sys.old.space.sets ≡ sys.old.built + 1 }
    requires empty { into.old ≡ [] }
    ensures ok { OnOk result ((fair : Bool) × ((fair ≡ false) ↔ NoFairInitial m.now) × (into.new ≡ head fair m.now.specs)) }
    ensures kept { OnOk result (sys.new ≡ sys.old) }
    ensures same { sys.new ≡ record sys.old { space = sys.new.space } }
    ensures err { IfErr result (λ e. IsCallFault sys.old.space sys.new.space e) }
{
    let fair = has_fair_initial(m, sys)?;
    if put_fair_line(fair, into).is_err() {
        return Err(SpaceFault::Memory);
    }
    if put_none_line(&m.model().specs, into).is_err() {
        return Err(SpaceFault::Memory);
    }
    Ok(())
}
