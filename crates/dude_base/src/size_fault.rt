//! Sizes that no image may have.

use crate::field::Field;
use std::error::Error;
use std::fmt;

/// The first field of `Sizes` that is out of its limits.
#[derive(Clone, Copy, Debug)]
pub struct SizeFault {
    pub field: Field,
}

impl fmt::Display for SizeFault {
    ghost use Rattle.dude_base.specs.Texts.{field_words};
    ghost use Rattle.std.specs.Prelude.{Some};

    ghost output = { λ fault. Some (field_words fault.field) };

    fn fmt<W: fmt::Write>(&self, f: &mut fmt::Formatter<W>) -> fmt::Result {
        f.write_str(match self.field {
            Field::Subscribers => "the number of subscribers is out of its limits",
            Field::Calls => "the number of call forwardings is out of its limits",
            Field::Rings => "the number of rings is out of its limits",
            Field::Cells => "the number of cells is out of its limits",
            Field::Pages => "the number of pages isn't the one that the tables need",
            Field::Index => "the index is out of its limits",
        })
    }
}

impl Error for SizeFault {}
