// Laws over the definitions of this crate. Each is the contract of a function that does nothing.
ghost use Rattle.fapp_tables.specs.IndexLaws.{NeighboursShareRecords, PairsAreAdded, RecordsNameBoth};

/// The neighbours of a path are the paths that share a record with it, ascending.
pub fn neighbours_share_records()
    ensures { NeighboursShareRecords }
{}

/// The records between two paths are those that name both, ascending, whichever of the two comes
/// first.
pub fn records_name_both()
    ensures { RecordsNameBoth }
{}

/// The pair between two literals is what one adds against the other.
pub fn pairs_are_added()
    ensures { PairsAreAdded }
{}
