//! One number for all that a machine has: its words, its views, its store, and the calls made on the medium.

use crate::entries::VIEWS;
use crate::stage::{Stage, place_in};
use crate::sum::Sum;
use crate::view_digest::add_view;
use dude_base::bundle::Bundle;
use dude_core::CoreWord;

/// No machine of a script has more locks, pages, words of frames or boxes.
const PLACES: u64 = 1 << 20;

/// The digest of a machine.
pub fn digest_of(stage: &Stage) -> u64 {
    let mut sum = Sum::new();
    add_words(&mut sum, stage);
    for who in 0..VIEWS {
        if let Some(view) = stage.core.view(who) {
            add_view(&mut sum, view);
        }
    }
    add_home(&mut sum, stage);
    add_rings(&mut sum, stage);
    add_numbers(&mut sum, stage);
    add_calls(&mut sum, stage);
    sum.total()
}

/// All words of the machine.
fn add_words(sum: &mut Sum, stage: &Stage) {
    sum.add(stage.core.word(CoreWord::Threads));
    sum.add(stage.core.word(CoreWord::Clock));
    sum.add(stage.core.word(CoreWord::Turn));
    sum.add(stage.core.word(CoreWord::Durable));
    sum.add(stage.core.word(CoreWord::Reproduced));
    for kind in 0..4_u64 {
        add_row(sum, stage, kind);
    }
    add_boxes(sum, stage);
}

/// The locks, the entries and the touches of pages, or the words of frames.
fn add_row(sum: &mut Sum, stage: &Stage, kind: u64) {
    for at in 0..PLACES {
        match stage.found(word_of(kind, at)) {
            Some(number) => sum.add(number),
            None => return,
        }
    }
}

fn word_of(kind: u64, at: u64) -> CoreWord {
    match kind {
        0 => CoreWord::Lock(at),
        1 => CoreWord::Entry(at),
        2 => CoreWord::Touch(at),
        _ => CoreWord::FrameWord(at),
    }
}

fn add_boxes(sum: &mut Sum, stage: &Stage) {
    for thread in 0..VIEWS {
        for place in 0..PLACES {
            match stage.found(CoreWord::BoxWord { thread, place }) {
                Some(number) => sum.add(number),
                None => break,
            }
        }
    }
}

/// The mark and the home, as the last whole call of the back left them, and what was read of each home word.
fn add_home(sum: &mut Sum, stage: &Stage) {
    let store = stage.core.store();
    sum.add(store.reproduced());
    for at in 0..place_in(stage.sizes().pages, 0) {
        sum.add(stage.home_word(at).unwrap_or(0));
        sum.add_maybe(store.word_read(at));
    }
}

/// Where the next bundle of each ring begins, for how many cells it has room, and the bundles that wait.
fn add_rings(sum: &mut Sum, stage: &Stage) {
    for ring in 0..stage.sizes().rings {
        sum.add(stage.next_slot(ring).unwrap_or(0));
        for cells in 0..=stage.sizes().cells {
            sum.add_truth(stage.has_room(ring, cells));
        }
    }
    let waiting = stage.core.store().waiting();
    sum.add(waiting.len() as u64);
    for bundle in waiting {
        sum.add(bundle.ring());
        add_bundle(sum, bundle.redo());
    }
}

fn add_bundle(sum: &mut Sum, bundle: &Bundle) {
    sum.add(bundle.first());
    sum.add(bundle.last());
    sum.add(bundle.len());
    for k in 0..bundle.len() {
        let write = bundle.write_at(k);
        sum.add(write.at);
        sum.add(write.value);
    }
}

/// Of each number up to the clock, whether it was told, whether the mark was settled there, whether it is on the medium, and over
/// which rings' bundles it is.
fn add_numbers(sum: &mut Sum, stage: &Stage) {
    let store = stage.core.store();
    for number in stage.first()..=stage.core.word(CoreWord::Clock) {
        sum.add_truth(store.was_told(stage.first(), number));
        sum.add_truth(store.was_mark(number));
        sum.add_truth(store.is_on_medium(number));
        for ring in 0..stage.sizes().rings {
            sum.add_truth(stage.is_newest(ring, number));
        }
    }
}

/// All calls that were made on the medium, and those of the call of the back that is under way.
fn add_calls(sum: &mut Sum, stage: &Stage) {
    sum.add(stage.calls_made());
    let calls = stage.core.store().calls();
    sum.add(calls.len() as u64);
    for call in calls {
        sum.add_call(call);
    }
}
