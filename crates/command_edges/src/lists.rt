//! The requests of texts.

ghost use Rattle.command_edges.specs.Texts.{HoldEachRequests, HoldsRequests, IsTextFault, IsFirstTextFault};
ghost use Rattle.std.specs.Prelude.{◌≤◌, IfOk, IfErr};

use crate::fault::Fault;
use dude_io::FileText;
use std::alloc::Global;
use tatp_csv::read_requests;
use tatp_model::Request;
use tatp_text::TextFault;

/// The requests of the text of the file of this number.
fn parse_text(alloc: Global, text: &FileText, number: u64) -> Result<Vec<Request>, Fault>
    ensures parsed { IfOk result (λ requests. HoldsRequests text.now requests.items) }
    ensures cause { IfErr result (IsTextFault text.now number) }
{
    let (row, field) = match text {
        FileText::TooLong => (0, 0),
        FileText::Whole(bytes) => match read_requests(alloc, bytes) {
            Ok(requests) => return Ok(requests),
            Err(TextFault::NoMemory) => return Err(Fault::Memory),
            Err(TextFault::Bad { row, field }) => (row, field),
        },
    };
    Err(Fault::Text {
        file: number,
        row,
        field,
    })
}

/// The requests of each text. The first bad text ends it; they are the texts of files behind so many others.
pub fn parse_texts(
    alloc: Global,
    texts: &[FileText],
    before: u64,
) -> Result<Vec<Vec<Request>>, Fault>
    requires few { before ≤ 1 }
    ensures parsed { IfOk result (HoldEachRequests texts.now) }
    ensures cause { IfErr result (IsFirstTextFault before texts.now) }
{
    let mut lists = Vec::new(alloc);
    for (index, text) in texts.iter().enumerate() {
        match parse_text(alloc, text, before + (index as u64 + 1)) {
            Ok(requests) => lists.push(requests)?,
            Err(fault) => return Err(fault),
        }
    }
    Ok(lists)
}
