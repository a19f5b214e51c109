//! Segments: rows as bytes, one record after the other in key order.
#![tactic(auto)]

mod checked;
mod columns;
mod decoding;
mod encoding;
mod fault;
mod fields;
pub mod laws;
mod place;
mod raw;
mod row;
mod writing;

pub use checksum::Form;
pub use decoding::{decode, record_at};
pub use encoding::{encode, encoded_len, put_record, rows_len};
pub use fault::SegmentFault;
pub use history_model::StampedRow;
pub use place::RowPlace;
