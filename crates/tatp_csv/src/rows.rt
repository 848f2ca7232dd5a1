//! The rows of a text.

ghost use Rattle.csv.specs.Reading.{records, default_config, strip_bom};
ghost use Rattle.std.specs.Prelude.{◌≡◌, IfOk, IfErr};
ghost use Rattle.tatp_csv.specs.Rows.{IsReading, rows_left, TakesRow};

use csv::{ByteRecord, ErrorKind, Reader, ReaderBuilder};
use std::alloc::Global;
use tatp_text::TextFault;

/// A reader of the rows of a text: commas, double quotes, no header row, no trimming, rows of any length.
pub fn rows_of(alloc: Global, text: &[u8]) -> Reader<&[u8]>
    ensures reads { IsReading result }
    ensures rows { rows_left result ≡ records default_config (strip_bom text.now) }
{
    ReaderBuilder::new()
        .has_headers(false)
        .flexible(true)
        .from_reader(alloc, text)
}

/// Whether there is a row left, which `row` then holds.
pub fn next_row(reader: &mut Reader<&[u8]>, row: &mut ByteRecord) -> Result<bool, TextFault>
    requires { IsReading reader.old }
    ensures reads { IfOk result (λ found. IsReading reader.new) }
    ensures refused { IfErr result (λ fault. fault ≡ TextFault.NoMemory) }
    ensures takes { IfOk result (TakesRow reader.old reader.new row.new) }
{
    match reader.read_byte_record(row) {
        Ok(found) => Ok(found),
        // A slice has no fault of its own, but the contract of `csv` is over any reader, so `Io` can't be ruled out.
        Err(error) => match error.kind() {
            ErrorKind::OutOfMemory | ErrorKind::Io(_) => Err(TextFault::NoMemory),
            _ => unreachable!(),
        },
    }
}
