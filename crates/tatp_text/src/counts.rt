//! How the requests of one kind were answered.

ghost use Rattle.std.specs.Prelude.{◌≡◌, ◌++◌, OnOk};
ghost use Rattle.tatp_text.specs.Counts.{HasRoom, line_of, number_of, with_reply};

use crate::number::push_number;
use std::alloc::AllocError;
use tatp_model::Reply;

/// How many requests of a kind there are, and how many of them had each reply that is counted.
#[derive(Clone, Copy)]
pub(crate) struct Counts {
    pub(crate) requests: u64,
    pub(crate) ok: u64,
    pub(crate) missing: u64,
    pub(crate) no_facility: u64,
    pub(crate) duplicate: u64,
    pub(crate) full: u64,
}

impl Counts {
    /// No request.
    pub(crate) const NONE: Counts = Counts {
        requests: 0,
        ok: 0,
        missing: 0,
        no_facility: 0,
        duplicate: 0,
        full: 0,
    };

    /// Counts one more request of the kind, by its reply.
    pub(crate) fn add(&mut self, reply: &Reply)
        requires room { HasRoom self.old }
        ensures { self.new ≡ with_reply self.old reply.now }
    {
        self.requests += 1;
        match reply {
            Reply::Subscriber(_) | Reply::Destinations(_) | Reply::Access(_) | Reply::Changed => {
                self.ok += 1
            }
            Reply::Missing => self.missing += 1,
            Reply::NoFacility => self.no_facility += 1,
            Reply::Duplicate => self.duplicate += 1,
            Reply::FullTable => self.full += 1,
            Reply::Durable => {}
        }
    }

    /// Appends the line of the kind with this name. What an `Err` leaves is of no use.
    #[tactic(auto, unfolding(crate::specs::Counts::line_of))]
    pub(crate) fn push_line(&self, name: &[u8], lines: &mut Vec<u8>) -> Result<(), AllocError>
        ensures { OnOk result (lines.new.items ≡ lines.old.items ++ line_of name.now self.now) }
    {
        lines.extend_from_slice(name)?;
        push_count(self.requests, lines)?;
        push_count(self.ok, lines)?;
        push_count(self.missing, lines)?;
        push_count(self.no_facility, lines)?;
        push_count(self.duplicate, lines)?;
        push_count(self.full, lines)?;
        lines.push(b'\n')?;
        Ok(())
    }
}

// Appends a count behind a space.
fn push_count(count: u64, lines: &mut Vec<u8>) -> Result<(), AllocError>
    ensures { OnOk result (lines.new.items ≡ lines.old.items ++ number_of count) }
{
    lines.push(b' ')?;
    push_number(count, lines)
}
