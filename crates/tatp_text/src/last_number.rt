//! The last record of the dump.

use crate::dump_row::DumpRow;
use crate::fields::push_number;
use csv::ByteRecord;
use std::alloc::{AllocError, Global};

/// The number that the dump closes with.
#[derive(Drop)]
pub struct LastNumber {
    pub number: u64,
}

impl DumpRow for LastNumber {
    ghost use Rattle.std.specs.Prelude.{⊤};
    ghost use Rattle.tatp_text.specs.Dump.{last_record};

    ghost record_fields = { λ last. last_record last.number };

    ghost in_range = { λ _. ⊤ };

    fn fill(&self, _alloc: Global, fields: &mut ByteRecord) -> Result<(), AllocError> {
        fields.clear();
        fields.push_field(b"LAST")?;
        push_number(fields, self.number)
    }
}
