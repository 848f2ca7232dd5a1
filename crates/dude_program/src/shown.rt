//! What is printed of an opened image.

/// What is printed of an opened image.
#[derive(Clone, Copy)]
pub enum Shown {
    /// Its number.
    Number,
    /// Its tables, and its number.
    Tables,
}
