//! Whether bytes are kept with checksums.

/// What the records of a segment begin with.
#[derive(Clone, Copy, Debug, PartialEq, Eq)]
pub enum Form {
    /// Their lengths: they have no checksums.
    Plain,
    /// The checksums of the bytes that follow.
    Checked,
}
