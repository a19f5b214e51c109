//! Items that are kept for each list of rows, besides its places.

ghost use Rattle.std.specs.Prelude.{◌≡◌, ◌<◌, ◌++◌, ◌∷◌, [], length, IfOk, remove, slice_set};
ghost use Rattle.as_of_index.specs.Places.{max_lists};

use crate::index::MAX_LISTS;
use std::alloc::{AllocError, Global};
use std::marker::Model;

/// One item for each list of an index, in the same order.
#[derive(Drop)]
pub struct PerList<T> {
    lists: Vec<T>,
}

impl<T> Model for PerList<T> {
    ghost use Rattle.std.specs.Prelude.{List, vec_capacity, ◌≤◌};
    ghost use Rattle.as_of_index.specs.Places.{max_lists};

    ghost Value = { List T };

    ghost view = { λ a. a.lists.items };

    ghost invariant = { λ a. max_lists ≤ vec_capacity a.lists };
}

impl<T: Drop> PerList<T> {
    /// No items, with capacity for one for each of the lists that there may be.
    pub fn new(alloc: Global) -> Result<PerList<T>, AllocError>
        // promise: the_index_has_every_row
        ensures { IfOk result (λ lists. lists ≡ []) }
    {
        let lists = Vec::with_capacity(alloc, MAX_LISTS)?;
        Ok(PerList { lists })
    }

    /// How many items there are.
    pub fn lists(&self) -> usize
        // promise: the_index_has_every_row
        ensures { result ≡ length self.now }
    {
        self.lists.len()
    }

    /// Adds an item at the end. Allocates nothing.
    pub fn add(&mut self, list: T)
        requires { length self.old < max_lists }
        // promise: the_index_has_every_row
        ensures { self.new ≡ self.old ++ list ∷ [] }
    {
        let Ok(()) = self.lists.push(list) else {
            unreachable!()
        };
    }

    /// Replaces items `i` and `j` by one, at position `i`. Allocates nothing.
    pub fn replace_two(&mut self, i: usize, j: usize, list: T)
        requires places { i < j }
        requires within { j < length self.old }
        // promise: the_index_has_every_row
        ensures { self.new ≡ remove (slice_set self.old i list) j }
    {
        self.lists[i] = list;
        let _removed = self.lists.remove(j);
    }

    /// All items.
    pub fn as_slice(&self) -> &[T]
        // promise: the_index_has_every_row
        ensures { result.now ≡ self.now }
    {
        self.lists.as_slice()
    }
}
