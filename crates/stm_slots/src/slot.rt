//! A slot of the table.

use crate::home::Home;
use dude_base::redo::Redo;
use pmem_trait::Medium;

/// A slot of the table: one for each box, and behind them that of the back.
pub enum Slot<M: Medium> {
    Empty,
    Record(Redo),
    Home(Home<M>),
}
