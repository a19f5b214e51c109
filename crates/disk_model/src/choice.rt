/// Which image of a moment is chosen.
#[derive(Clone, Copy)]
pub enum Choice {
    /// The bytes that a read returns at that moment: everything that was written is on the disk.
    Kept,
    /// The bytes at the last sync, cut to the smallest length since then: nothing that was written
    /// is on the disk.
    Lost,
    /// The bytes that a read returns at that moment, with this byte at each unsynced position.
    Filled(u8),
}
