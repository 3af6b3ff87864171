use kom_disk::Disk;
use kom_journal::Journal;
use kom_types::Made;
use std::snapshot::Snapshot;

/// An entry of a book's history: the record of its act, and the store as the act left it, if the
/// book has one. The store is there for clauses alone, and takes no memory.
#[derive(Drop)]
pub struct Ticked<D: Disk> {
    pub made: Made,
    pub store: Snapshot<Option<Journal<D>>>,
}
