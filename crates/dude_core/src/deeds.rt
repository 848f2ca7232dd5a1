//! Events as those that a view makes by itself, a group at a time.

ghost use Rattle.dude_core.specs.Named.{event_of, of_read, of_write, of_turn, of_page};
ghost use Rattle.dude_core.specs.Steps.{IsEventOf, IsMadeIn, group_of, other_group, reading, writing, turning, paging};
ghost use Rattle.std.specs.Prelude.{◌≡◌, ◌≢◌, IfSome, IfNone};

use crate::about::About;
use crate::deed::{Deed, PageDeed, ReadDeed, TurnDeed, WriteDeed};
use crate::event::Event;
use crate::filling::Filling;
use crate::store::Store;
use dude_base::redo::Redo;
use dude_base::write_list::WriteList;

/// The event as one that a view makes by itself.
pub(crate) fn deed_of(event: &Event, store: &Store) -> Deed
    requires { group_of event.now ≢ other_group }
    ensures { IsEventOf store.now.read event.now (event_of result) }
{
    if let Some(deed) = read_deed(event) {
        return Deed::Read(deed);
    }
    if let Some(deed) = write_deed(event) {
        return Deed::Write(deed);
    }
    if let Some(deed) = turn_deed(event) {
        return Deed::Turn(deed);
    }
    match page_deed(event, store) {
        Some(deed) => Deed::Page(deed),
        None => unreachable!(),
    }
}

fn read_deed(event: &Event) -> Option<ReadDeed>
    ensures { IsMadeIn reading of_read event.now result }
{
    match event {
        Event::Number => Some(ReadDeed::Number),
        Event::Clock { extend } => {
            if *extend {
                Some(ReadDeed::Extend)
            } else {
                Some(ReadDeed::Begin)
            }
        }
        Event::Look { lock } => Some(ReadDeed::Look { lock: *lock }),
        Event::Load { at } => Some(ReadDeed::Load { at: *at }),
        Event::Check { lock } => Some(ReadDeed::Check { lock: *lock }),
        Event::Finish {
            file,
            index,
            request,
            reply,
        } => Some(ReadDeed::Finish {
            about: About::new(*file, *index, *request, *reply),
        }),
        _ => None,
    }
}

fn write_deed(event: &Event) -> Option<WriteDeed>
    ensures { IsMadeIn writing of_write event.now result }
{
    match event {
        Event::Take { lock } => Some(WriteDeed::Take { lock: *lock }),
        Event::Draw {
            file,
            index,
            request,
            reply,
            writes,
        } => Some(WriteDeed::Draw {
            about: About::new(*file, *index, *request, *reply),
            writes: writes_of(writes),
        }),
        Event::Decide => Some(WriteDeed::Decide),
        Event::Store { at } => Some(WriteDeed::Store { at: *at }),
        Event::Release { lock } => Some(WriteDeed::Release { lock: *lock }),
        Event::Restore { lock } => Some(WriteDeed::Restore { lock: *lock }),
        _ => None,
    }
}

fn turn_deed(event: &Event) -> Option<TurnDeed>
    ensures { IsMadeIn turning of_turn event.now result }
{
    match event {
        Event::SeeBox => Some(TurnDeed::SeeBox),
        Event::Post => Some(TurnDeed::Post),
        Event::TakeTurn => Some(TurnDeed::TakeTurn),
        Event::GiveTurn { failed } => Some(TurnDeed::GiveTurn { failed: *failed }),
        Event::SeeFull { thread, place } => Some(TurnDeed::SeeFull {
            thread: *thread,
            place: *place,
        }),
        Event::EmptyBox { thread, place } => Some(TurnDeed::EmptyBox {
            thread: *thread,
            place: *place,
        }),
        Event::RaiseDurable { value } => Some(TurnDeed::RaiseDurable { value: *value }),
        Event::RaiseReproduced { value } => Some(TurnDeed::RaiseReproduced { value: *value }),
        _ => None,
    }
}

fn page_deed(event: &Event, store: &Store) -> Option<PageDeed>
    ensures some { IfSome result (λ deed. IsEventOf store.now.read event.now (of_page deed)) }
    ensures none { IfNone result (group_of event.now ≢ paging) }
{
    match event {
        Event::Entry { page } => Some(PageDeed::Entry { page: *page }),
        Event::Pin { page } => Some(PageDeed::Pin { page: *page }),
        Event::Unpin { page } => Some(PageDeed::Unpin { page: *page }),
        Event::Touch { page } => Some(PageDeed::Touch { page: *page }),
        Event::LoadTouch { page } => Some(PageDeed::LoadTouch { page: *page }),
        Event::Evict { page } => Some(PageDeed::Evict { page: *page }),
        Event::Fill { page, frame, at } => {
            let filling = Filling {
                page: *page,
                frame: *frame,
                at: *at,
                value: store.word_read(*at).unwrap_or(0),
            };
            Some(PageDeed::Fill { filling })
        }
        Event::Show { page, frame } => Some(PageDeed::Show {
            page: *page,
            frame: *frame,
        }),
        _ => None,
    }
}

// The writes of the record.
fn writes_of(record: &Redo) -> WriteList
    ensures { result ≡ record.now.writes }
{
    let mut writes = WriteList::new();
    for k in 0..record.len() {
        writes.put(record.write_at(k)).unwrap();
    }
    writes
}
