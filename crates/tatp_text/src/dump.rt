//! The dump.

ghost use Rattle.std.specs.Prelude.{◌≡◌, IfOk, OnErr, OnOk};
ghost use Rattle.tatp_model.specs.Database.{database_of, IsInOrder};
ghost use Rattle.tatp_text.specs.Appending.{Adds};
ghost use Rattle.tatp_text.specs.Dump.{dump_text};

use crate::last_number::LastNumber;
use crate::writing::write_rows;
use csv::WriterBuilder;
use std::alloc::{AllocError, Global};
use tatp_model::Tables;

/// Appends the records of the four tables, and one of the last number. `out` is as it was where there is no memory.
pub fn write_dump(tables: &Tables, last: u64, out: &mut Vec<u8>) -> Result<(), AllocError>
    requires { IsInOrder (database_of tables.now) }
    ensures ok { OnOk result (Adds out.old out.new (dump_text (database_of tables.now) last)) }
    ensures err { OnErr result (out.new.items ≡ out.old.items) }
{
    let text = dump_text(*out.allocator(), tables, last)?;
    out.extend_from_slice(&text)
}

fn dump_text(alloc: Global, tables: &Tables, last: u64) -> Result<Vec<u8>, AllocError>
    requires { IsInOrder (database_of tables.now) }
    ensures { IfOk result (λ text. text.items ≡ dump_text (database_of tables.now) last) }
{
    let mut writer = WriterBuilder::new()
        .flexible(true)
        .from_writer(Vec::new(alloc));
    write_rows(alloc, &mut writer, &tables.subscribers)?;
    write_rows(alloc, &mut writer, &tables.access)?;
    write_rows(alloc, &mut writer, &tables.facilities)?;
    write_rows(alloc, &mut writer, &tables.calls)?;
    write_rows(alloc, &mut writer, &[LastNumber { number: last }])?;
    match writer.into_inner() {
        Ok(text) => Ok(text),
        Err(_) => Err(AllocError),
    }
}
