//! A transaction begins.

ghost use Rattle.std.specs.Borrow.{sem, RestsIfErr};
ghost use Rattle.std.specs.Prelude.{◌≡◌, ◌<◌, [], None, IfOk, IfErr};
ghost use Rattle.stm_transactions.specs.Begins.{Begins, IsReady};
ghost use Rattle.stm_transactions.specs.Passes.{IsRefused, IsResting};
ghost use Rattle.stm_transactions.specs.Transactions.{HasBegun};
ghost use Rattle.stm_transactions.specs.contracts.pass.Pass.{the_row};

use crate::box_full::BoxFull;
use crate::pass::Pass;
use crate::rule::{TransactionRule, let_transact};
use crate::tx::{Tx, TxOver};
use core_table::stm::Stm;

// Begins a transaction of the pass, whose next box was seen empty.
fn begin_now<'a, S, X, K, P: TransactionRule<S, X, K>>(
    p: &'a mut Pass<X>,
    stm: &'a Stm<S, X, K, P>,
) -> Tx<'a, S, X, K, P>
    requires ready { IsReady stm.now.events p.old }
    ensures same { result.pass.ghost_name ≡ p.entry.ghost_name }
    ensures stm { result.stm.now ≡ stm.now }
    ensures view { Begins stm.now.events p.old result.snapshot result.seat.me.0.view }
    ensures numbers { (result.numbers ≡ p.old.numbers) × (result.refused ≡ 0) }
    ensures none { (result.lists.value.reads.items ≡ []) × (result.lists.value.writes ≡ []) }
    ensures no_stop { result.stopped ≡ None }
{
    let_transact(stm);
    let numbers = p.numbers();
    let (mut seat, mut lists) = p.take_seat();
    let snapshot = stm.clock(&mut seat);
    lists.clear();
    TxOver {
        pass: p,
        stm,
        seat,
        numbers,
        snapshot,
        refused: 0,
        pinned: None,
        stopped: None,
        lists,
    }
}

/// Begins a transaction of the pass, where its next box is empty.
pub fn begin_in<'a, S, X, K, P: TransactionRule<S, X, K>>(
    p: &'a mut Pass<X>,
    stm: &'a Stm<S, X, K, P>,
) -> Result<Tx<'a, S, X, K, P>, BoxFull>
    requires rests { IsResting stm.now.events p.old }
    ensures* refused { sem 𝓛 (RestsIfErr (the_row X.row) p.entry (λ t. t.pass.ghost_name) result
        (λ n. IfErr result (λ e. IsRefused stm.now.events e.seen p.old n))) }
    ensures full { IfErr result (λ e. 0 < e.seen) }
    ensures same { IfOk result (λ t. t.pass.ghost_name ≡ p.entry.ghost_name) }
    ensures begun { IfOk result (HasBegun stm.now.events p.old) }
{
    let_transact(stm);
    p.see_box(stm)?;
    Ok(begin_now(p, stm))
}
