//! What a comparison finds.

use crate::told::Told;
use rf2_rows::Row;

/// A row of a package's Snapshot, and another row that is shown of its component.
#[derive(Drop)]
pub struct DifferentRow {
    pub packaged: Row,
    pub shown: Row,
}

/// How many rows there are of each kind.
#[derive(Clone, Copy, Debug, PartialEq, Eq)]
pub struct Counts {
    pub concepts: u64,
    pub descriptions: u64,
    pub relationships: u64,
    pub associations: u64,
    pub concretes: u64,
    pub members: u64,
}

/// How the rows that are shown differ from those of a package's Snapshot.
#[derive(Drop)]
pub struct Differences {
    /// The rows of the Snapshot.
    pub counts: Counts,
    /// The rows of the Snapshot of whose components no row is shown, in the order in which the
    /// package gives them.
    pub missing: Told<Row>,
    /// The rows of the Snapshot of whose components another row is shown, in the same order.
    pub different: Told<DifferentRow>,
    /// The rows that are shown, of modules that the Snapshot names, of whose components it has no
    /// row, in the order of kind and identifier.
    pub more: Told<Row>,
}
