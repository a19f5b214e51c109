//! The first items of a list, and how many it has.

ghost use Rattle.std.specs.Prelude.{OnOk};
ghost use Rattle.snapshot_check.specs.Private.{IsNothingTold, IsNoted};

use std::alloc::{AllocError, Global};

/// The first items of a list, up to a limit, and how many the list has.
#[derive(Drop)]
pub struct Told<T> {
    pub listed: Vec<T>,
    pub count: u64,
}

impl<T: Drop> Told<T> {
    /// Those of the empty list.
    pub(crate) fn new(alloc: Global) -> Told<T>
        ensures { IsNothingTold result }
    {
        Told {
            listed: Vec::new(alloc),
            count: 0,
        }
    }

    /// Adds an item to the list.
    pub(crate) fn note(&mut self, limit: usize, item: T) -> Result<(), AllocError>
        ensures { OnOk result (IsNoted limit item self.old self.new) }
    {
        let Some(count) = self.count.checked_add(1) else {
            return Err(AllocError);
        };
        if self.listed.len() < limit {
            self.listed.push(item)?;
        }
        self.count = count;
        Ok(())
    }
}
