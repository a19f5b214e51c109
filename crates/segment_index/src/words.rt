//! Whether an index has the words of terms.

/// Whether words are kept, by which descriptions are found.
#[derive(Clone, Copy, Debug, PartialEq, Eq)]
pub enum Words {
    /// Each active description is posted by its words, and by the length and the type of its term.
    Kept,
    /// There are no such postings, and they take no memory.
    LeftOut,
}
