//! What a release adds.

use rf2_values::Row;

/// The rows of an accepted release that weren't known.
#[derive(Drop)]
pub struct NewRows {
    /// The new rows, each once, in key order.
    pub rows: Vec<Row>,
    /// How many lines repeat a row that is known or on an earlier line.
    pub repeated: u64,
}
