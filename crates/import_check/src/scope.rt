//! Which parts of a package are read.

/// Which files of a package are read.
#[derive(Clone, Copy, Debug, PartialEq, Eq)]
pub enum Scope {
    /// The files of concepts, descriptions, relationships, associations and concrete values.
    Basic,
    /// The same, and the files of text definitions and of members of all other reference sets.
    Whole,
}
