//! Fields that are added to a record. What an `Err` leaves is of no use: the record that is being made ends with it.

ghost use Rattle.csv.specs.Records.{partial_of};
ghost use Rattle.std.specs.Prelude.{◌≡◌, ◌∷◌, [], map, decimal, OnOk};
ghost use Rattle.tatp_text.specs.Number.{phone_text};
ghost use Rattle.tatp_text.specs.Writing.{AddsFields};

use csv::ByteRecord;
use itoa::Buffer;
use std::alloc::{AllocError, Global};

/// Adds a number.
pub fn push_number(fields: &mut ByteRecord, number: u64) -> Result<(), AllocError>
    requires { partial_of fields.old ≡ [] }
    ensures added { OnOk result (AddsFields fields.old fields.new (decimal number ∷ [])) }
    ensures whole { OnOk result (partial_of fields.new ≡ []) }
{
    let mut buffer = Buffer::new();
    fields.push_field(buffer.format(number).as_bytes())
}

/// Adds a phone number.
pub fn push_phone(alloc: Global, fields: &mut ByteRecord, number: u64) -> Result<(), AllocError>
    requires { partial_of fields.old ≡ [] }
    ensures added { OnOk result (AddsFields fields.old fields.new (phone_text number ∷ [])) }
    ensures whole { OnOk result (partial_of fields.new ≡ []) }
{
    let mut text = Vec::new(alloc);
    crate::number::push_phone(number, &mut text)?;
    fields.push_field(&text)
}

/// Adds each of these numbers.
pub fn push_numbers(fields: &mut ByteRecord, numbers: &[u8]) -> Result<(), AllocError>
    requires { partial_of fields.old ≡ [] }
    ensures added { OnOk result (AddsFields fields.old fields.new (map decimal numbers.now)) }
    ensures whole { OnOk result (partial_of fields.new ≡ []) }
{
    for number in numbers {
        push_number(fields, u64::from(*number))?;
    }
    Ok(())
}
