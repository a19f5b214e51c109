ghost use Rattle.std.specs.Prelude.{◌≡◌, ◌+◌, ◌-◌, ◌≤◌, ◌<◌, ◌^◌, ◌++◌, length, replicate};
ghost use Rattle.std.specs.Prelude.{IfOk, MatchResult};

use crate::decoding::{has_sum, have_forms, read_entries, split_header};
use crate::encoding::{write_entries, write_header, write_sum};
use crate::entry::Entry;
use crate::layout::Layout;
use std::alloc::{AllocError, Global};
use std::marker::Model;
use thiserror::Error;

/// The capacity of a directory, in entries, whatever its layout.
pub const MOST_PLACES: usize = 250;

/// The layout, the epoch, the number of imports and the positions of the segments. It can always be
/// encoded as a content block, and has capacity for the most entries, so that changing it allocates
/// nothing.
#[derive(Drop)]
pub struct Directory {
    layout: Layout,
    epoch: u64,
    imports: u32,
    entries: Vec<Entry>,
}

impl Model for Directory {
    ghost use Rattle.std.specs.Prelude.{vec_capacity, ◌≤◌};
    ghost use Rattle.directory.specs.Listings.{DirectoryValue, IsListing, most_places};

    ghost Value = { DirectoryValue };

    ghost view = { λ d. record {
      layout = d.layout;
      epoch = d.epoch;
      imports = d.imports;
      entries = d.entries.items;
    } };

    ghost invariant = { λ d. record {
      is : IsListing (record {
        layout = d.layout;
        epoch = d.epoch;
        imports = d.imports;
        entries = d.entries.items;
      });
      room : most_places ≤ vec_capacity d.entries;
    } };
}

/// Why a content block can't be decoded as a directory.
#[derive(Clone, Copy, Debug, PartialEq, Eq, Error)]
pub enum DirectoryFault {
    #[error("out of memory")]
    OutOfMemory,
    /// Epoch 0; an unknown mark; a non-zero byte in the last eight of the header; more entries than
    /// the layout allows; an entry without bytes or rows, in the slots, past the last block, or
    /// whose records aren't in the form of the layout; two entries that share a block; or, in
    /// layout 3, a wrong checksum.
    #[error("the block lists no directory")]
    BadDirectory,
}

impl From<AllocError> for DirectoryFault {
    ghost use Rattle.std.specs.Prelude.{◌≡◌};
    ghost use Rattle.directory.specs.declared.listing.DirectoryFault.TheVariants.{OutOfMemory};

    ghost from_gives = { λ _ e. e ≡ OutOfMemory };

    fn from(_: AllocError) -> Self {
        DirectoryFault::OutOfMemory
    }
}

impl Directory {
    ghost use Rattle.directory.specs.Listings.{DirectoryValue, IsListing, empty_listing};
    ghost use Rattle.directory.specs.Listings.{next_layout, number_of};
    ghost use Rattle.directory.specs.Listings.{with_entry, with_two_replaced, with_two_back};
    ghost use Rattle.directory.specs.Content.{Lists, listing_bytes, summed};
    ghost use Rattle.directory.specs.declared.listing.DirectoryFault.TheVariants as faults;

    /// The directory of a new store with this layout: epoch 1, no imports, no entries.
    pub fn new(alloc: Global, layout: Layout) -> Result<Directory, AllocError>
        // promise: older_layouts_stay_readable
        ensures { IfOk result (λ d. d ≡ empty_listing layout) }
    {
        let entries = Vec::with_capacity(alloc, MOST_PLACES)?;
        Ok(Directory {
            layout,
            epoch: 1,
            imports: 0,
            entries,
        })
    }

    /// A copy.
    pub fn try_clone(&self, alloc: Global) -> Result<Directory, AllocError>
        ensures { IfOk result (λ d. d ≡ self.now) }
    {
        let mut entries = Vec::with_capacity(alloc, MOST_PLACES)?;
        entries.extend_from_slice(self.entries.as_slice())?;
        Ok(Directory {
            layout: self.layout,
            epoch: self.epoch,
            imports: self.imports,
            entries,
        })
    }

    /// Decodes the directory that a content block lists. In layouts 1 and 2 the bytes after the
    /// last entry are ignored. In layout 3 the last four bytes of the block have to be the checksum
    /// of all others.
    pub fn decode(alloc: Global, block: &[u8; 4096]) -> Result<Directory, DirectoryFault>
        // promise: bytes_are_those_of_the_layout, damage_is_noticed_and_named
        // promise: older_layouts_stay_readable
        ensures found { IfOk result (λ d. Lists block.now d) }
        // A block that lists a directory is never refused as bad.
        // promise: bytes_are_those_of_the_layout, damage_is_noticed_and_named
        // promise: older_layouts_stay_readable
        ensures only { (d : DirectoryValue) → Lists block.now d
            → MatchResult result (λ found. found ≡ d) (λ e. e ≡ faults.OutOfMemory) }
    {
        let Some((header, rest)) = split_header(block) else {
            return Err(DirectoryFault::BadDirectory);
        };
        let entries = read_entries(alloc, rest, header.count)?;
        if !have_forms(header.layout, entries.as_slice()) {
            return Err(DirectoryFault::BadDirectory);
        }
        if !has_sum(header.layout, block) {
            return Err(DirectoryFault::BadDirectory);
        }
        Ok(Directory {
            layout: header.layout,
            epoch: header.epoch,
            imports: header.imports,
            entries,
        })
    }

    /// Encodes the directory as a content block.
    pub fn encode(&self, block: &mut [u8; 4096])
        // promise: bytes_are_those_of_the_layout, damage_is_noticed_and_named
        // promise: older_layouts_stay_readable
        ensures lists { Lists block.new self.now }
        // promise: bytes_are_those_of_the_layout, damage_is_noticed_and_named
        // promise: older_layouts_stay_readable
        ensures bytes { block.new ≡ summed self.now.layout (listing_bytes self.now
            ++ replicate (4096 - length (listing_bytes self.now)) 0) }
    {
        self.write_listing(block);
        match self.layout {
            Layout::One | Layout::Two => {}
            Layout::Three => write_sum(block),
        }
    }

    /// Writes the content block without its checksum: the header, the entries, and zeros after
    /// them.
    fn write_listing(&self, block: &mut [u8; 4096])
        ensures { block.new ≡ listing_bytes self.now
            ++ replicate (4096 - length (listing_bytes self.now)) 0 }
    {
        block.fill(0);
        write_header(
            block,
            self.layout,
            self.epoch,
            self.imports,
            self.entries.len() as u32,
        );
        write_entries(self.entries.as_slice(), &mut block[32..]);
    }

    /// Its layout.
    pub fn layout(&self) -> Layout
        // promise: older_layouts_stay_readable
        ensures { result ≡ self.now.layout }
    {
        self.layout
    }

    /// The number of its layout.
    pub fn layout_number(&self) -> u32
        // promise: older_layouts_stay_readable
        ensures { result ≡ number_of self.now.layout }
    {
        self.layout.number()
    }

    /// Sets the layout to that of the next publication. The epoch is unchanged.
    pub fn upgrade(&mut self)
        // promise: older_layouts_stay_readable
        ensures { self.new ≡ record self.old { layout = next_layout self.old.layout } }
    {
        self.layout = self.layout.next();
    }

    /// The number of its publication: 1 for a new store, and one more for each later publication.
    pub fn epoch(&self) -> u64
        ensures { result ≡ self.now.epoch }
    {
        self.epoch
    }

    /// The number of accepted imports.
    pub fn imports(&self) -> u32
        ensures { result ≡ self.now.imports }
    {
        self.imports
    }

    /// Its segments, in the order in which they were added.
    pub fn entries(&self) -> &[Entry]
        ensures entries { result.now ≡ self.now.entries }
        ensures listing { IsListing self.now }
    {
        self.entries.as_slice()
    }

    /// Advances to the next epoch, and sets the number of imports.
    pub fn advance(&mut self, imports: u32)
        requires { self.old.epoch + 1 < 2 ^ 64 }
        ensures { self.new ≡ record self.old { epoch = self.old.epoch + 1; imports = imports } }
    {
        self.epoch += 1;
        self.imports = imports;
    }

    /// Adds an entry at the end.
    pub fn add(&mut self, entry: Entry)
        requires { IsListing (with_entry self.old entry) }
        ensures { self.new ≡ with_entry self.old entry }
    {
        let Ok(()) = self.entries.push(entry) else {
            unreachable!()
        };
    }

    /// Puts the entry at position `i`, and removes the one at position `j`. The epoch is unchanged.
    pub fn replace_two(&mut self, i: usize, j: usize, entry: Entry)
        requires places { i < j }
        requires within { j < length self.old.entries }
        requires listing { IsListing (with_two_replaced self.old i j entry) }
        ensures { self.new ≡ with_two_replaced self.old i j entry }
    {
        self.entries[i] = entry;
        let _ = self.entries.remove(j);
    }

    /// Undoes a replacement, for instance after a publication that failed: restores the layout and
    /// the epoch from before, and the two entries, `first` at position `i` and `second` at position
    /// `j`.
    pub fn put_back(
        &mut self,
        layout: Layout,
        epoch: u64,
        i: usize,
        j: usize,
        first: Entry,
        second: Entry,
    )
        requires places { i < j }
        requires within { j ≤ length self.old.entries }
        requires listing { IsListing (with_two_back self.old layout epoch i j first second) }
        // promise: bytes_are_those_of_the_layout
        ensures { self.new ≡ with_two_back self.old layout epoch i j first second }
    {
        self.layout = layout;
        self.epoch = epoch;
        self.entries[i] = first;
        let Ok(()) = self.entries.insert(j, second) else {
            unreachable!()
        };
    }
}
