//! What has a record in the dump.

ghost use Rattle.csv.specs.Records.{fields_of};
ghost use Rattle.std.specs.Prelude.{◌≡◌, ℕ, List, OnOk};
ghost use Rattle.tatp_text.specs.Writing.{IsPlain};

use csv::ByteRecord;
use std::alloc::{AllocError, Global};

/// What has a record in the dump.
pub trait DumpRow {
    /// Its record's name and fields.
    ghost record_fields: { Self → List (List ℕ) };

    /// Its fields are in their ranges.
    ghost in_range: { Self → Type 0 };

    /// Makes `fields` its record.
    fn fill(&self, alloc: Global, fields: &mut ByteRecord) -> Result<(), AllocError>
        requires { in_range self.now }
        ensures fields { OnOk result (fields_of fields.new ≡ record_fields self.now) }
        ensures plain { OnOk result (IsPlain (fields_of fields.new)) };
}
