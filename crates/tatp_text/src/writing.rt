//! Records that are written one after another.

ghost use Rattle.csv.specs.Records.{fields_of};
ghost use Rattle.std.specs.Prelude.{map, All, OnOk};
ghost use Rattle.tatp_text.specs.Writing.{IsBetweenRecords, IsPlain, WroteRecord, WroteRecords};

use crate::dump_row::DumpRow;
use csv::{ByteRecord, Writer};
use std::alloc::{AllocError, Global};

/// Writes a record for each row.
pub fn write_rows<R: DumpRow>(
    alloc: Global,
    writer: &mut Writer<Vec<u8>>,
    rows: &[R],
) -> Result<(), AllocError>
    requires between { IsBetweenRecords writer.old }
    requires in_range { All R.in_range rows.now }
    ensures between { OnOk result (IsBetweenRecords writer.new) }
    ensures text { OnOk result (WroteRecords writer.old writer.new (map R.record_fields rows.now)) }
{
    let mut fields = ByteRecord::new(alloc);
    for row in rows {
        row.fill(alloc, &mut fields)?;
        write_record(writer, &fields)?;
    }
    Ok(())
}

// Writes a record of several fields that need no quotes.
fn write_record(writer: &mut Writer<Vec<u8>>, fields: &ByteRecord) -> Result<(), AllocError>
    requires between { IsBetweenRecords writer.old }
    requires plain { IsPlain (fields_of fields.now) }
    ensures between { OnOk result (IsBetweenRecords writer.new) }
    ensures text { OnOk result (WroteRecord writer.old writer.new (fields_of fields.now)) }
{
    if writer.write_byte_record(fields).is_err() {
        return Err(AllocError);
    }
    Ok(())
}
