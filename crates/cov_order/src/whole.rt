ghost use Rattle.std.specs.Prelude.{◌≡◌, ◌≤◌, IfOk, OnOk, IfErr, None, length};
ghost use Rattle.cov_model.specs.Order.{circular, ordered, dependence, reads_of};
ghost use Rattle.cov_order.specs.Answer.{IsCircle};
ghost use Rattle.cov_order.specs.Reach.{AreThere};

use crate::circle::first_circle;
use crate::dependence::dependence;
use crate::order::Order;
use crate::reading::reads_of;
use crate::renumber::{defines_in, renumbered_all, renumbered_assigns};
use cov_model::Model;
use cov_syntax::{NoMemory, Refused};
use std::alloc::Global;

/// The model with its DEFINEs in order of dependence, after a search for a DEFINE that reads itself. The expressions are copied.
pub fn put_in_order(alloc: Global, m: Model) -> Result<Model, Refused>
    requires few { length m.defines ≤ 4096 }
    requires there { AreThere m.defines }
    ensures ok { IfOk result (λ r. r ≡ ordered m) }
    ensures no_circle { OnOk result (circular m.defines ≡ None) }
    ensures fault { IfErr result (IsCircle m.defines) }
{
    let reads = reads_of(alloc, m.defines.as_slice())?;
    let order = dependence(alloc, &reads)?;
    if let Some(fault) = first_circle(alloc, m.defines.as_slice(), &reads, &order)? {
        return Err(Refused::Fault(fault));
    }
    Ok(ordered_by(alloc, m, &order)?)
}

/// The model with its DEFINEs in this order.
fn ordered_by(alloc: Global, m: Model, order: &Order) -> Result<Model, NoMemory>
    requires { order.now.items ≡ dependence (reads_of m.defines) }
    ensures { IfOk result (λ r. r ≡ ordered m) }
{
    let defines = defines_in(alloc, &m.defines, order)?;
    let inits = renumbered_all(alloc, &m.inits, order)?;
    let invars = renumbered_all(alloc, &m.invars, order)?;
    let nows = renumbered_assigns(alloc, &m.nows, order)?;
    let firsts = renumbered_assigns(alloc, &m.firsts, order)?;
    let nexts = renumbered_assigns(alloc, &m.nexts, order)?;
    let trans = renumbered_all(alloc, &m.trans, order)?;
    let fair = renumbered_all(alloc, &m.fair, order)?;
    let specs = renumbered_all(alloc, &m.specs, order)?;
    let mut ordered = m;
    ordered.defines = defines;
    ordered.inits = inits;
    ordered.invars = invars;
    ordered.nows = nows;
    ordered.firsts = firsts;
    ordered.nexts = nexts;
    ordered.trans = trans;
    ordered.fair = fair;
    ordered.specs = specs;
    Ok(ordered)
}
