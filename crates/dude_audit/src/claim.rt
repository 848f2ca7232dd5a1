//! What a printed line says of a request.

ghost use Rattle.dude_audit.specs.Claim.{claims_sync};
ghost use Rattle.std.specs.Prelude.{◌≡◌};

use tatp_model::Request;

/// A line of a printed run, with the request that it belongs to. It owns no text: that stands in the printed bytes.
#[derive(Clone, Copy)]
pub struct Claim {
    /// Which file of the run the request stands in, from 0.
    pub file: u64,
    /// Which request of that file it is, from 0.
    pub index: u64,
    pub request: Request,
    /// The number that the line says.
    pub number: u64,
    /// Whether the line says that the request wrote.
    pub wrote: bool,
    /// Which line it is, from 1.
    pub line: u64,
    /// Where the line's text begins in the printed bytes.
    pub from: usize,
    /// Where it ends.
    pub to: usize,
}

impl Claim {
    /// Whether the line is that of a `SYNC`.
    pub fn is_sync(&self) -> bool
        ensures { result ≡ claims_sync self.now }
    {
        matches!(self.request, Request::Sync)
    }
}
