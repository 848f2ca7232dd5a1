//! What a load was answered, by the kinds of its requests.

ghost use Rattle.std.specs.Prelude.{◌≡◌, ◌++◌, OnErr, OnOk};
ghost use Rattle.tatp_text.specs.Summary.{EachHasRoom, counted, summary_of, text_of, with_done};

use crate::counts::Counts;
use std::alloc::AllocError;
use tatp_model::{Done, Request};

/// The counts of each kind of request.
#[derive(Clone, Copy)]
struct Summary {
    get_subscriber: Counts,
    get_destination: Counts,
    get_access: Counts,
    update_subscriber: Counts,
    update_location: Counts,
    insert_call: Counts,
    delete_call: Counts,
    sync: Counts,
}

/// Appends the summary of a load: a line for each kind of request, with its name, how many there were, and how many of
/// them were answered `OK` (with or without fields), `NONE`, `NOFAC`, `DUP` and `FULL`. `out` is as it was where there
/// is no memory.
pub fn write_summary(done: &[Done], out: &mut Vec<u8>) -> Result<(), AllocError>
    ensures ok { OnOk result (out.new.items ≡ out.old.items ++ summary_of done.now) }
    ensures err { OnErr result (out.new.items ≡ out.old.items) }
{
    let mut lines = Vec::new(*out.allocator());
    Summary::of(done).push_lines(&mut lines)?;
    out.extend_from_slice(&lines)
}

impl Summary {
    // The counts of these requests.
    fn of(done: &[Done]) -> Summary
        ensures { result ≡ counted done.now }
    {
        let mut summary = Summary {
            get_subscriber: Counts::NONE,
            get_destination: Counts::NONE,
            get_access: Counts::NONE,
            update_subscriber: Counts::NONE,
            update_location: Counts::NONE,
            insert_call: Counts::NONE,
            delete_call: Counts::NONE,
            sync: Counts::NONE,
        };
        for entry in done {
            summary.add(entry);
        }
        summary
    }

    // Counts one more request.
    #[tactic(auto, unfolding(crate::specs::Summary::with_done))]
    fn add(&mut self, done: &Done)
        requires room { EachHasRoom self.old }
        ensures { self.new ≡ with_done self.old done.now }
    {
        match done.request {
            Request::GetSubscriber { .. } => self.get_subscriber.add(&done.reply),
            Request::GetDestination { .. } => self.get_destination.add(&done.reply),
            Request::GetAccess { .. } => self.get_access.add(&done.reply),
            Request::UpdateSubscriber { .. } => self.update_subscriber.add(&done.reply),
            Request::UpdateLocation { .. } => self.update_location.add(&done.reply),
            Request::InsertCall { .. } => self.insert_call.add(&done.reply),
            Request::DeleteCall { .. } => self.delete_call.add(&done.reply),
            Request::Sync => self.sync.add(&done.reply),
        }
    }

    // Appends the lines. What an `Err` leaves is of no use.
    fn push_lines(&self, lines: &mut Vec<u8>) -> Result<(), AllocError>
        ensures { OnOk result (lines.new.items ≡ lines.old.items ++ text_of self.now) }
    {
        self.get_subscriber
            .push_line(b"GET_SUBSCRIBER_DATA", lines)?;
        self.get_destination
            .push_line(b"GET_NEW_DESTINATION", lines)?;
        self.get_access.push_line(b"GET_ACCESS_DATA", lines)?;
        self.update_subscriber
            .push_line(b"UPDATE_SUBSCRIBER_DATA", lines)?;
        self.update_location.push_line(b"UPDATE_LOCATION", lines)?;
        self.insert_call
            .push_line(b"INSERT_CALL_FORWARDING", lines)?;
        self.delete_call
            .push_line(b"DELETE_CALL_FORWARDING", lines)?;
        self.sync.push_line(b"SYNC", lines)
    }
}
