//! The expected text and the actual one, if they differ.

use std::alloc::Global;

/// The last two texts that differed.
#[derive(Drop)]
pub(crate) struct Shown {
    pub(crate) wanted: String,
    pub(crate) got: String,
}

impl Shown {
    /// No texts.
    pub(crate) fn new(alloc: Global) -> Shown {
        Shown {
            wanted: String::new(alloc),
            got: String::new(alloc),
        }
    }
}
