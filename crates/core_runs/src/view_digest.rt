//! What a view has, as numbers of a digest.

use crate::sum::Sum;
use dude_core::about::About;
use dude_core::entry::Entry;
use dude_core::hand::Hand;
use dude_core::part::Part;
use dude_core::transaction::Transaction;
use dude_core::turn::Turn;
use dude_core::view::View;
use dude_core::word::Word;
use tatp_model::reply::Reply;
use tatp_model::request::Request;

/// Adds all that a view has.
pub fn add_view(sum: &mut Sum, view: &View) {
    add_part(sum, &view.part);
    sum.add(view.draws);
    sum.add_numbers(view.drawn.as_slice());
    add_transaction(sum, &view.tx);
    sum.add_pairs(view.paging.entries.as_slice());
    sum.add_pairs(view.paging.pins.as_slice());
    sum.add_numbers(view.paging.touched.as_slice());
    sum.add(view.boxes.next);
    sum.add_truth(view.boxes.is_empty);
    add_turn(sum, &view.turn);
    sum.add(view.entries.len() as u64);
    for entry in &view.entries {
        add_entry(sum, entry);
    }
    add_found(sum, view.found);
    sum.add(view.count);
}

fn add_part(sum: &mut Sum, part: &Part) {
    sum.add_truth(part.is_spent);
    sum.add_maybe(part.thread);
    sum.add_numbers(part.ended.as_slice());
    sum.add(part.splits);
}

fn add_transaction(sum: &mut Sum, tx: &Transaction) {
    sum.add_truth(tx.is_open);
    sum.add(tx.snapshot);
    sum.add_maybe(tx.extension);
    sum.add_pairs(tx.reads.as_slice());
    sum.add_numbers(tx.checked.as_slice());
    sum.add_pair(tx.look);
    sum.add_pair(tx.loaded);
    sum.add_pairs(tx.owned.as_slice());
    add_hand(sum, &tx.hand);
}

fn add_hand(sum: &mut Sum, hand: &Hand) {
    sum.add(hand.number);
    sum.add_truth(hand.decided);
    sum.add_truth(hand.void);
    add_about(sum, &hand.about);
    sum.add_writes(&hand.writes);
    sum.add_numbers(hand.stored.as_slice());
}

fn add_turn(sum: &mut Sum, turn: &Turn) {
    sum.add_truth(turn.has_it);
    sum.add(turn.count);
    sum.add(turn.durable);
    sum.add_truth(turn.met_fault);
    sum.add_pairs(turn.full.as_slice());
    sum.add_pairs(turn.touches.as_slice());
    sum.add_pairs(turn.filled.as_slice());
}

fn add_entry(sum: &mut Sum, entry: &Entry) {
    sum.add(entry.number);
    sum.add_truth(entry.wrote);
    add_about(sum, &entry.about);
    sum.add_pairs(entry.reads.as_slice());
    sum.add_writes(&entry.writes);
}

/// No script makes other requests or replies than these.
fn add_about(sum: &mut Sum, about: &About) {
    sum.add(about.file);
    sum.add(about.index);
    match about.request {
        Request::Sync => sum.add(0),
        Request::UpdateLocation { sub_nbr, vlr } => {
            sum.add_kind(1, sub_nbr);
            sum.add(vlr);
        }
        Request::GetSubscriber { s_id } => sum.add_kind(2, s_id),
        _ => sum.add(3),
    }
    match about.reply {
        Reply::Durable => sum.add(0),
        Reply::Changed => sum.add(1),
        Reply::Missing => sum.add(2),
        _ => sum.add(3),
    }
}

/// The word that was found last, by its kind and its place, and what it held.
fn add_found(sum: &mut Sum, found: Option<(Word, u64)>) {
    sum.add_truth(found.is_some());
    if let Some((word, number)) = found {
        match word {
            Word::Threads => sum.add_kind(0, 0),
            Word::Clock => sum.add_kind(1, 0),
            Word::Turn => sum.add_kind(2, 0),
            Word::Durable => sum.add_kind(3, 0),
            Word::Reproduced => sum.add_kind(4, 0),
            Word::Lock(at) => sum.add_kind(5, at),
            Word::Entry(at) => sum.add_kind(6, at),
            Word::Touch(at) => sum.add_kind(7, at),
            Word::Cell(at) => sum.add_kind(8, at),
            Word::Box(at) => sum.add_kind(9, at),
        }
        sum.add(number);
    }
}
