//! Records of consecutive numbers are taken out of the boxes of all threads.

ghost use Rattle.std.specs.Prelude.{◌≡◌, ◌<◌, ◌≤◌, ◌+◌, ℕ, true, false, IfSome, IfNone, length, slice_index, slice_set};
ghost use Rattle.stm_turns.specs.Bundles.{InTurnWith, SteppedWith};
ghost use Rattle.stm_turns.specs.Gathered.{BeginsAlike};
ghost use Rattle.stm_turns.specs.InFront.{AreFound, AreFoundAgain, FindsFront, FindsWhereNone, IsFirstWith, NoneHas};
ghost use Rattle.stm_turns.specs.Turns.{HasHome, SteppedOn};

use crate::boxes::{look, look_for, put_last};
use crate::gathering::Gathering;
use crate::slots::{SlotSeat, read_record};
use dude_base::limits::{MAX_RINGS, MAX_SPAN};
use pmem_trait::Medium;
use stm_slots::home::Home;
use stm_slots::slots_rule::Events;

/// Of each thread what was found in front of its boxes: a number, 0 where there is none to take, and
/// `LEFT` where its records stay.
pub type Fronts = [u64; MAX_RINGS as usize];

/// More than any number: nothing is taken any more from a thread whose records stay in their boxes.
pub const LEFT: u64 = u64::MAX;

/// Looks at one box of each thread, at these places.
pub fn look_at_all<M: Medium>(
    events: &Events<M>,
    seat: &mut SlotSeat<M>,
    home: &Home<M>,
    places: &Fronts,
) -> Fronts
    requires turn { HasHome M.sight events.now seat.old home.now }
    requires wide { events.now.setup.threads ≤ length places.now }
    requires places { (u : ℕ) → u < events.now.setup.threads
        → slice_index places.now u < events.now.setup.boxes }
    ensures step { SteppedOn M.sight events.now seat.old seat.new home.now home.now }
    ensures found { AreFound events.now.setup places.now result events.now.setup.threads
        seat.old.me.0.view seat.new.me.0.view }
{
    let mut fronts = [0; MAX_RINGS as usize];
    for thread in 0..events.threads() {
        fronts[thread as usize] = look(events, seat, home, thread, places[thread as usize]);
    }
    fronts
}

/// What was found in front of a thread's boxes, after one more look where nothing was. A number up to
/// `above` is none to take.
fn look_where_empty<M: Medium>(
    events: &Events<M>,
    home: &Home<M>,
    seat: &mut SlotSeat<M>,
    thread: u64,
    place: u64,
    above: u64,
    front: u64,
) -> u64
    requires thread { thread < events.now.setup.threads }
    requires place { place < events.now.setup.boxes }
    requires turn { HasHome M.sight events.now seat.old home.now }
    ensures step { SteppedOn M.sight events.now seat.old seat.new home.now home.now }
    ensures found { FindsWhereNone events.now.setup thread place above front
        seat.old.me.0.view seat.new.me.0.view result }
{
    if front != 0 {
        return front;
    }
    let number = look(events, seat, home, thread, place);
    if number > above { number } else { 0 }
}

/// Looks once more at the box of each thread where nothing was found, at these places. A number up to
/// `above` is none to take.
pub fn look_again<M: Medium>(
    events: &Events<M>,
    seat: &mut SlotSeat<M>,
    home: &Home<M>,
    places: &Fronts,
    above: u64,
    fronts: &mut Fronts,
)
    requires turn { HasHome M.sight events.now seat.old home.now }
    requires wide { events.now.setup.threads ≤ length places.now }
    requires places { (u : ℕ) → u < events.now.setup.threads
        → slice_index places.now u < events.now.setup.boxes }
    ensures step { SteppedOn M.sight events.now seat.old seat.new home.now home.now }
    ensures found { AreFoundAgain events.now.setup places.now above fronts.old fronts.new
        events.now.setup.threads seat.old.me.0.view seat.new.me.0.view }
{
    for thread in 0..events.threads() {
        let (place, front) = (places[thread as usize], fronts[thread as usize]);
        fronts[thread as usize] = look_where_empty(events, home, seat, thread, place, above, front);
    }
}

/// The first of so many threads that has this number in front.
fn thread_with(fronts: &Fronts, threads: u64, number: u64) -> Option<u64>
    requires { threads ≤ length fronts.now }
    ensures some { IfSome result (IsFirstWith fronts.now threads number) }
    ensures none { IfNone result (NoneHas fronts.now threads number) }
{
    for thread in 0..threads {
        if fronts[thread as usize] == number {
            return Some(thread);
        }
    }
    None
}

/// Takes the record of the next number, where it stands in front of a thread's boxes and the bundle
/// takes it. Answers whether it did.
fn join<M: Medium>(
    events: &Events<M>,
    seat: &mut SlotSeat<M>,
    home: &Home<M>,
    gathering: &mut Gathering,
    thread: u64,
) -> bool
    requires with { InTurnWith M.sight events.now seat.old home.now gathering.old }
    requires thread { thread < events.now.setup.threads }
    ensures step { SteppedWith M.sight events.now seat.old seat.new home.now gathering.new }
    ensures alike { BeginsAlike gathering.old gathering.new }
    ensures took { result ≡ true → gathering.new.count ≡ gathering.old.count + 1 }
    ensures left { result ≡ false → gathering.new ≡ gathering.old }
{
    let place = gathering.ahead[thread as usize];
    let number = gathering.bundle.last() + 1;
    if !look_for(events, seat, home, thread, place, number) {
        return false;
    }
    let redo = read_record(events, seat, events.box_number(thread, place));
    if gathering.take(thread, &redo, home.back.cells(), events.boxes()) {
        seat.turn();
        true
    } else {
        put_last(events, seat, home, thread, place);
        false
    }
}

/// Looks at what stands in front of a thread's boxes behind those that were taken.
pub fn look_behind<M: Medium>(
    events: &Events<M>,
    seat: &mut SlotSeat<M>,
    home: &Home<M>,
    gathering: &Gathering,
    fronts: &mut Fronts,
    thread: u64,
)
    requires with { InTurnWith M.sight events.now seat.old home.now gathering.now }
    requires thread { thread < events.now.setup.threads }
    ensures step { SteppedOn M.sight events.now seat.old seat.new home.now home.now }
    ensures found { FindsFront events.now.setup thread (slice_index gathering.now.ahead thread)
        gathering.now.bundle.last seat.old.me.0.view seat.new.me.0.view
        (slice_index fronts.new thread) }
    ensures others { fronts.new ≡ slice_set fronts.old thread (slice_index fronts.new thread) }
{
    let behind = gathering.ahead[thread as usize];
    let number = look(events, seat, home, thread, behind);
    // A number of the bundle stands there where all boxes of the thread were taken.
    let is_new = number > gathering.bundle.last();
    fronts[thread as usize] = if is_new { number } else { 0 };
}

/// The first thread that has the number behind the bundle in front, if need be after one more look at
/// the boxes that were empty: it may have been posted since.
fn thread_with_next<M: Medium>(
    events: &Events<M>,
    seat: &mut SlotSeat<M>,
    home: &Home<M>,
    gathering: &Gathering,
    fronts: &mut Fronts,
) -> Option<u64>
    requires with { InTurnWith M.sight events.now seat.old home.now gathering.now }
    ensures step { SteppedOn M.sight events.now seat.old seat.new home.now home.now }
    ensures some { IfSome result (IsFirstWith fronts.new events.now.setup.threads
        (gathering.now.bundle.last + 1)) }
    ensures none { IfNone result (NoneHas fronts.new events.now.setup.threads
        (gathering.now.bundle.last + 1)) }
{
    let last = gathering.bundle.last();
    if let Some(thread) = thread_with(fronts, events.threads(), last + 1) {
        return Some(thread);
    }
    look_again(events, seat, home, &gathering.ahead, last, fronts);
    thread_with(fronts, events.threads(), last + 1)
}

/// Takes the record of the next number, where it stands in front of some thread's boxes and the
/// bundle takes it. Answers whether it did.
fn join_next<M: Medium>(
    events: &Events<M>,
    seat: &mut SlotSeat<M>,
    home: &Home<M>,
    gathering: &mut Gathering,
    fronts: &mut Fronts,
) -> bool
    requires with { InTurnWith M.sight events.now seat.old home.now gathering.old }
    ensures step { SteppedWith M.sight events.now seat.old seat.new home.now gathering.new }
    ensures alike { BeginsAlike gathering.old gathering.new }
    ensures took { result ≡ true → gathering.new.count ≡ gathering.old.count + 1 }
    ensures left { result ≡ false → gathering.new ≡ gathering.old }
{
    let Some(thread) = thread_with_next(events, seat, home, gathering, fronts) else {
        return false;
    };
    if !join(events, seat, home, gathering, thread) {
        return false;
    }
    look_behind(events, seat, home, gathering, fronts, thread);
    true
}

/// Takes the records of the numbers that follow, as long as the next one stands in front of some
/// thread's boxes and the bundle takes it.
pub fn gather<M: Medium>(
    events: &Events<M>,
    seat: &mut SlotSeat<M>,
    home: &Home<M>,
    gathering: &mut Gathering,
    fronts: &mut Fronts,
)
    requires with { InTurnWith M.sight events.now seat.old home.now gathering.old }
    ensures step { SteppedWith M.sight events.now seat.old seat.new home.now gathering.new }
    ensures alike { BeginsAlike gathering.old gathering.new }
{
    for _ in 0..MAX_SPAN {
        if !join_next(events, seat, home, gathering, fronts) {
            return;
        }
    }
}
