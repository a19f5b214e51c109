//! A list from which items are taken one by one.

ghost use Rattle.std.specs.Prelude.{◌≡◌, length};
ghost use Rattle.std.specs.Iterator.{YieldsFirst, item_count};

use std::marker::Model;

/// The least unused capacity, in items, at which memory is freed: each time, the remaining items
/// may have to be moved.
const FEWEST_IDLE: usize = 1024;

/// And at least one part in this many of the capacity has to be unused.
const PARTS: usize = 16;

/// The remaining items of a vector, by value and in its order. As they are taken, their memory is
/// returned to the system.
#[derive(Drop)]
pub struct ShrinkingList<T> {
    /// The remaining items, the last one first.
    left: Vec<T>,
}

impl<T> Model for ShrinkingList<T> {
    ghost use Rattle.std.specs.Prelude.{List, reverse};

    ghost Value = { List T };

    ghost view = { λ s. reverse s.left.items };
}

impl<T: Drop> ShrinkingList<T> {
    /// All items of a vector.
    pub fn new(items: Vec<T>) -> ShrinkingList<T>
        // promise: a_release_is_taken_whole_or_not_at_all
        ensures { result ≡ items.items }
    {
        let mut left = items;
        left.reverse();
        ShrinkingList { left }
    }

    /// How many items are left.
    pub fn len(&self) -> usize
        ensures { result ≡ length self.now }
    {
        self.left.len()
    }

    /// Whether enough of the capacity is unused to be worth freeing.
    fn is_roomy(&self) -> bool {
        let room = self.left.capacity();
        let idle = room.saturating_sub(self.left.len());
        FEWEST_IDLE <= idle && room / PARTS <= idle
    }
}

// promise: a_release_is_taken_whole_or_not_at_all
impl<T: Drop> Iterator for ShrinkingList<T> {
    type Item = T;

    ghost next_gives = { YieldsFirst (λ left. left) };

    ghost remaining = { item_count (λ left. left) };

    fn next(&mut self) -> Option<T> {
        let first = self.left.pop();
        if self.is_roomy() {
            self.left.shrink_to_fit();
        }
        first
    }

    fn size_hint(&self) -> (usize, Option<usize>) {
        (self.len(), Some(self.len()))
    }
}

#[cfg(test)]
mod tests {
    use super::ShrinkingList;
    use std::test::Fail;

    #[test]
    fn room_is_given_back(rt: HostRuntime) -> Result<(), Fail> {
        let items: Vec<u32> = (0..100_000).collect(rt.alloc())?;
        let mut list = ShrinkingList::new(items);
        for _ in 0..90_000 {
            assert!(rt; list.next().is_some());
        }
        assert_eq!(rt; list.len(), 10_000);
        assert!(rt; list.left.capacity() < 12_000);
        for _ in 0..10_000 {
            assert!(rt; list.next().is_some());
        }
        assert!(rt; list.left.capacity() < 2_000);
        Ok(())
    }
}
