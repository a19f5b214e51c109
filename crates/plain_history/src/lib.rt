//! The definitions of `history_model` computed in the simplest way, by visiting all rows.
//!
//! Other functions are compared with these. They may take time that is quadratic in the number of
//! rows.
#![tactic(auto)]

mod audit;
mod descriptions;
mod edges;
mod exports;
mod hierarchy;
mod known;
mod membership;
mod order;
mod relationships;
mod releases;
mod snapshots;
mod words;

pub use audit::{dates, delta, timeline};
pub use descriptions::{search_terms, terms};
pub use edges::{about, replacements, replaces};
pub use exports::rows_of_kind;
pub use hierarchy::{ancestors, descendants, parents};
pub use known::KnownRows;
pub use membership::{called, members, values};
pub use relationships::{children, sources};
pub use releases::{accepts, after_release, import_receipt, receipt, rows_at};
pub use snapshots::{get, page, snapshot, versions};
pub use words::words_found;
