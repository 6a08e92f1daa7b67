ghost use Rattle.std.specs.Prelude.{◌≡◌, ◌+◌, length, OnOk, IfErr};
ghost use Rattle.cov_space.specs.Answers.{IsCallFault};
ghost use Rattle.cov_sym.specs.Systems.{IsBuiltFor};
ghost use Rattle.cov_hold.specs.Prepared.{IsPrepared, PutsGood};

use cov_fair::fair;
use cov_space::SpaceFault;
use cov_sym::Sys;
use cov_types::Checked;

/// Puts the states that start a fair lasso, right after the sets of the model.
pub fn prepare(m: &Checked, sys: &mut Sys) -> Result<(), SpaceFault>
    requires built { IsBuiltFor m.now sys.old }
    requires alone { length sys.old.space.sets ≡ sys.old.built }
    ensures ok { OnOk result (IsPrepared m.now sys.new) }
    ensures puts { OnOk result (PutsGood sys.old.space sys.new.space) }
    ensures count { OnOk result (length sys.new.space.sets ≡ length sys.old.space.sets + 1) }
    ensures kept { sys.new ≡ record sys.old { space = sys.new.space } }
    ensures err { IfErr result (λ f. IsCallFault sys.old.space sys.new.space f) }
{
    fair(&mut sys.space, &sys.relation, &sys.fairness)
}
