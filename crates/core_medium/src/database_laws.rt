//! What every crash after any list of steps recovers to.

ghost use Rattle.core_medium.specs.Databases.{LawOfRecoveredDatabases, LawOfRecoveredOrder};

/// Over an opening array that stands for a database, where each entry is that of a served request:
/// after every list of steps of all threads every image recovers to the database at its number,
/// which is that after the requests up to it in the printed order; and no greater number was told.
pub fn law_of_recovered_databases()
    ensures databases { LawOfRecoveredDatabases }
    ensures order { LawOfRecoveredOrder }
{}
