//! A transaction, which has the seat of its pass.

ghost use Rattle.core_table.specs.Steps.{BelongsTo};
ghost use Rattle.dude_base.specs.declared.limits.TheConstants.{PAGE as PAGE_WORDS};
ghost use Rattle.std.proofs.Props.{props};
ghost use Rattle.std.specs.Prelude.{◌≡◌, ◌*◌, ◌<◌, All, length};
ghost use Rattle.stm_transactions.specs.Pairs.{pairs_of};
ghost use Rattle.stm_transactions.specs.Passes.{Describes};
ghost use Rattle.stm_transactions.specs.Pins.{pin_list};
ghost use Rattle.stm_transactions.specs.Running.{IsRunning};
ghost use Rattle.stm_transactions.specs.Stops.{CountsStop};

use crate::box_rule::BoxRule;
use crate::commit::Commit;
use crate::counting::{count_commit, done_of, has_any};
use crate::descriptor::Descriptor;
use crate::ending::{commit_all, give_up};
use crate::lost::Lost;
use crate::pass::Pass;
use crate::pass_numbers::PassNumbers;
use crate::pinned::Pinned;
use crate::rule::{TransactionRule, let_transact};
use crate::transaction_lists::TransactionLists;
use core_table::event_table::Seat;
use core_table::served::Served;
use core_table::stm::Stm;
use tatp_model::done::Done;
use tatp_model::reply::Reply;
use tatp_model::request::Request;
use word_space::stop::Stop;

/// A transaction, over its lists. It has the seat of its pass, and the pass's numbers as they were at its begin.
pub struct TxOver<'a, S, X, K, P: TransactionRule<S, X, K>, L: TransactionLists> {
    pub(crate) pass: &'a mut Pass<X>,
    pub(crate) stm: &'a Stm<S, X, K, P>,
    pub(crate) seat: Seat<S, X>,
    pub(crate) numbers: PassNumbers,
    pub(crate) snapshot: u64,
    pub(crate) refused: u64,
    pub(crate) pinned: Option<Pinned>,
    pub(crate) stopped: Option<Stop>,
    pub(crate) lists: L,
    ghost belongs: { BelongsTo stm.now.events seat } by { Prim.hlevel props },
    ghost slots: { length seat.me.1 ≡ 0 },
    ghost describes: { Describes stm.now.events.setup numbers seat.me.0.view } by { Prim.hlevel props },
    ghost running: { IsRunning stm.now.events.setup numbers.thread snapshot (L.reads lists)
        (L.writes lists) (pairs_of (L.held lists)) (pin_list pinned) seat.me.0.view } by { Prim.hlevel props },
    ghost reads_inside: { All (λ r. r.0 < stm.now.events.setup.pages * PAGE_WORDS)
        (L.reads lists) } by { Prim.hlevel props },
    ghost stops: { CountsStop stm.now.events.setup stopped refused },
}

/// A transaction.
pub type Tx<'a, S, X, K, P> = TxOver<'a, S, X, K, P, Box<Descriptor>>;

impl<'a, S, X, K, P: TransactionRule<S, X, K> + BoxRule<S, X, K>> TxOver<
    'a,
    S,
    X,
    K,
    P,
    Box<Descriptor>,
> {
    ghost use Rattle.std.specs.Prelude.{IfOk, IfErr};
    ghost use Rattle.stm_transactions.specs.Ends.{HasCommitted, HasLostCommit, HasDrawLeft};

    /// Ends it with an entry of this request and its reply. Where it answers what lost it, no entry is made. It takes no memory.
    pub fn commit(self, file: u64, index: u64, q: &Request, reply: &Reply) -> Result<Done, Lost>
        requires draws { HasDrawLeft self }
        ensures ok { IfOk result
            (HasCommitted file index q.now reply.now self.entry self.exit.0.now) }
        ensures err { IfErr result (HasLostCommit self.entry self.exit.0.now) }
    {
        let TxOver {
            pass,
            stm,
            mut seat,
            numbers,
            snapshot,
            refused,
            pinned,
            stopped: _,
            mut lists,
        } = self;
        let_transact(stm);
        let own = &mut *lists;
        let commit = Commit {
            thread: numbers.thread,
            place: numbers.next,
            snapshot,
            reads: own.reads.as_slice(),
            writes: &own.writes,
            held: &own.held,
        };
        let served = Served {
            file,
            index,
            request: q,
            reply,
        };
        let answer = commit_all(stm, &mut seat, &commit, &pinned, &served, &mut own.frames);
        let wrote = has_any(&own.writes);
        let done = done_of(&served, wrote, &answer);
        let numbers = count_commit(numbers, wrote, &answer, stm.events.boxes()).refuse(refused);
        pass.put_seat(seat, lists, numbers);
        done
    }
}

impl<'a, S, X, K, P: TransactionRule<S, X, K>, L: TransactionLists> TxOver<'a, S, X, K, P, L> {
    ghost use Rattle.stm_transactions.specs.Ends.{HasAborted};
    ghost use Rattle.stm_transactions.specs.Transactions.{HasCountedStop, tx_sight};

    /// Its last Stop.
    pub fn stopped(&self) -> Option<Stop>
        ensures stop { result ≡ (tx_sight self.now).stopped }
        ensures counted { HasCountedStop self.now }
    {
        self.stopped
    }

    /// The clock's value at its begin, or at its last extension.
    pub fn snapshot(&self) -> u64
        ensures { result ≡ self.now.snapshot }
    {
        self.snapshot
    }

    /// Ends it without an entry; its locks get their old words.
    pub fn abort(self)
        ensures { HasAborted self.entry self.exit.0.now }
    {
        let TxOver {
            pass,
            stm,
            mut seat,
            numbers,
            snapshot: _,
            refused,
            pinned,
            stopped: _,
            lists,
        } = self;
        let_transact(stm);
        give_up(stm, &mut seat, &pinned, lists.held());
        pass.put_seat(seat, lists.into_descriptor(), numbers.refuse(refused));
    }
}

impl<S, X, K, P: TransactionRule<S, X, K>, L: TransactionLists> Drop for TxOver<'_, S, X, K, P, L> {
    ghost use Rattle.stm_transactions.specs.Ends.{HasAborted};

    fn drop(self)
        ensures { HasAborted self.entry self.exit.0.now }
    {
        self.abort();
    }
}
