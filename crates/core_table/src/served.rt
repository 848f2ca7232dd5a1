//! What an entry is about.

use tatp_model::reply::Reply;
use tatp_model::request::Request;

/// What the entry of a transaction is about: the request at this place of this file, and its reply.
#[derive(Clone, Copy)]
pub struct Served<'a> {
    pub file: u64,
    pub index: u64,
    pub request: &'a Request,
    pub reply: &'a Reply,
}
