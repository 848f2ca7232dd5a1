//! The five tables of a home: where they stand, the rows in their records, the home of a new database, and the check of any
//! array.
#![tactic(auto)]

mod calls;
mod fault;
mod fill;
mod indexing;
mod kinds;
mod packing;
mod populated;
mod population;
mod rows;
mod subscribers;
mod words;

pub use fault::PopFault;
pub use population::{law_of_population, populate};
pub use tatp_check::{CheckFault, check, tables_of};
pub use tatp_layout::{
    Layout, get_access, get_call, get_fac, get_sub, put_bit1, put_call, put_data_a, put_vlr,
};
