//! Laws of tables, each the contract of a function that does nothing.
ghost use Rattle.vf_tables.specs.Laws.{KeptStay, SnapshotMakes};

/// Tables that are kept lead to such ones, by changes that fit and leave valid tables.
pub fn kept_stay()
    ensures { KeptStay }
{}

/// The snapshot of tables that are kept fits those of a filestore that is just made, and leads from these to the tables.
pub fn snapshot_makes()
    ensures { SnapshotMakes }
{}
