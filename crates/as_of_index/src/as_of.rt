//! The date and the pin of a query.

use rf2_values::EffectiveTime;

/// The date of a query, and how many imports it sees. Public functions take it by value, and
/// private ones mostly by reference.
#[derive(Clone, Copy)]
pub struct AsOf {
    /// The latest version of each component up to this day counts.
    pub date: EffectiveTime,
    /// Only the rows that the first `pin` imports brought are seen.
    pub pin: u32,
}
