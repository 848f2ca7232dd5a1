//! What an entry is about: a request of a file, and its reply.

ghost use Rattle.std.specs.Prelude.{◌≡◌};

use std::marker::Model;
use tatp_model::reply::Reply;
use tatp_model::request::Request;

/// What an entry is about: a request of a file, and its reply.
#[derive(Drop)]
pub struct About {
    /// The number of the file.
    pub file: u64,
    /// The place in that file.
    pub index: u64,
    /// The request there.
    pub request: Request,
    /// What it was answered.
    pub reply: Reply,
}

impl Model for About {
    ghost use Rattle.core_events.specs.Views.{About};

    ghost Value = { About };

    ghost view = { λ a. record { file = a.file; index = a.index; request = a.request; reply = a.reply } };
}

impl About {
    /// The request at this place of the file, and its reply.
    pub fn new(file: u64, index: u64, request: Request, reply: Reply) -> Self
        ensures { result ≡ record { file = file; index = index; request = request; reply = reply } }
    {
        About {
            file,
            index,
            request,
            reply,
        }
    }

    /// The same once more.
    pub fn copy(&self) -> Self
        ensures { result ≡ self.now }
    {
        About {
            file: self.file,
            index: self.index,
            request: self.request,
            reply: self.reply,
        }
    }
}
