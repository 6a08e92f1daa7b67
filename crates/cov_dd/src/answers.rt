ghost use Rattle.std.specs.Prelude.{IfOk, IfErr, is_ok};
ghost use Rattle.cov_dd.specs.Nodes.{Denotes};
ghost use Rattle.cov_dd.specs.Cofactors.{Computes, IsFault};
ghost use Rattle.cov_dd.specs.Questions.{wanted, IsAsked};
ghost use Rattle.cov_dd.specs.Memo.{AllRight, Counted};

use crate::fault::TableFault;
use crate::memo::Memo;
use crate::node::Ref;
use crate::questions::{Question, halve, settled};
use crate::store::Store;

/// The answer that is kept, or else by recursion over the diagrams (Bryant, 1986). Each answer is kept.
pub fn answer(store: &mut Store, memo: &mut Memo, asked: Question) -> Result<Ref, TableFault>
    requires asked { IsAsked store.old asked }
    requires right { AllRight store.old memo.old }

    ensures ok { IfOk result (λ r. Denotes store.new ((wanted asked).top store.old) r ((wanted asked).function store.old)) }
    ensures computes { Computes store.old store.new ((wanted asked).top store.old) ((wanted asked).function store.old) }
    ensures err { IfErr result (λ e. IsFault store.new ((wanted asked).top store.old) ((wanted asked).function store.old) e) }
    ensures right { AllRight store.new memo.new }
    ensures counted { Counted store.old store.new memo.old memo.new asked (is_ok result) }
{
    if let Some(known) = settled(store, asked) {
        return Ok(known);
    }
    if let Some(known) = memo.get(asked) {
        return Ok(known);
    }
    let halves = halve(store, asked);
    let low = answer(store, memo, halves.low)?;
    let high = answer(store, memo, halves.high)?;
    let made = store.mk(halves.level, low, high)?;
    memo.insert(asked, made)?;
    Ok(made)
}
