//! Release files of SNOMED CT: their rows, lines and faults.
//!
//! The files are those of the SNOMED CT Release File Specifications (RF2): text in UTF-8, one row
//! on each line, and columns separated by TAB.
#![tactic(auto)]

mod columns;
mod fault;
mod file;
pub mod laws;
mod line;
mod shape;
mod write;

pub use fault::{FileFault, LineFault, RowFault};
pub use file::{column_names, read_file};
pub use line::parse_line;
pub use rf2_values::{
    Association, Body, Class, Concept, Concrete, Description, EffectiveTime, Further, Key, Kind,
    Member, RefsetMember, Relationship, Row, Sctid, Text,
};
pub use shape::Shape;
pub use write::write_row;
