//! The four tables in memory.

use crate::access_row::AccessRow;
use crate::call_row::CallRow;
use crate::fac_row::FacRow;
use crate::sub_row::SubRow;

/// The four tables, each a list of rows in rising order of key. Contracts
/// see them by `database_of`, of `specs/Database.antt`.
#[derive(Drop)]
pub struct Tables {
    pub subscribers: Vec<SubRow>,
    pub access: Vec<AccessRow>,
    pub facilities: Vec<FacRow>,
    pub calls: Vec<CallRow>,
}
