//! Which commands a server holds back.

/// Which commands are refused before anything is done.
#[derive(Clone, Copy, Debug, PartialEq, Eq)]
pub enum Held {
    /// None.
    Nothing,
    /// Those that would confirm something about rows: damage was found.
    Confirming,
    /// Those that may change the store, and CHECK: the server only reads.
    Changing,
}
