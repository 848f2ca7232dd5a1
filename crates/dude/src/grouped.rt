//! A number as it is shown.

use std::fmt;

/// The units of the groups of three digits, the greatest first.
const UNITS: [u64; 7] = [
    1_000_000_000_000_000_000,
    1_000_000_000_000_000,
    1_000_000_000_000,
    1_000_000_000,
    1_000_000,
    1_000,
    1,
];

/// A number, shown with a comma between each three digits.
#[derive(Clone, Copy)]
pub struct Grouped(pub u64);

impl fmt::Display for Grouped {
    fn fmt<W: fmt::Write>(&self, f: &mut fmt::Formatter<W>) -> fmt::Result {
        let mut is_first = true;
        for unit in UNITS {
            let above = self.0.checked_div(unit).unwrap_or(0);
            let group = above % 1_000;
            if !is_first {
                write!(f, ",{group:03}")?;
            } else if above > 0 || unit == 1 {
                write!(f, "{group}")?;
                is_first = false;
            }
        }
        Ok(())
    }
}
