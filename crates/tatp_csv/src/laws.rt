//! What is written of requests is read back, as the contract of a function that does nothing.

ghost use Rattle.tatp_csv.specs.RequestText.{LawOfRequestText};

/// What `write_request` wrote for a list of at most 100,000 requests, each in range, is a request file that means that
/// list.
pub fn law_of_request_text()
    ensures { LawOfRequestText }
{}
