//! A disk in memory with a name that comes to refer to something else.
//!
//! `named to BYTES` begins with an empty disk, to which its name refers as long as the disk has at
//! most so many bytes. `named missed` prints whether a write was refused since the name refers to
//! something else, and `named bytes FROM TO` bytes of the disk. All others, as `named write ..`,
//! are calls on the disk, as `case_values::call_disk` makes them.

use crate::calls::done;
use case_files::{Answer, two_words};
use case_values::{call_disk, number, spell_part, spell_yes};
use command_line::{Name, NamedDisk};
use disk_model::MemDisk;
use std::alloc::Global;
use std::io;

/// A name that refers to its disk as long as the disk has at most this many bytes.
#[derive(Clone, Copy)]
pub struct Sign {
    bytes: u64,
}

impl Name for Sign {
    ghost use Rattle.std.specs.Prelude.{◌<◌, ◌≤◌};

    ghost leads = { λ sign length. length ≤ sign.bytes };

    ghost misses = { λ sign length. sign.bytes < length };

    fn look(&self, length: u64) -> io::Result<()> {
        if length <= self.bytes {
            Ok(())
        } else {
            Err(io::Error::other("it leads elsewhere"))
        }
    }
}

/// The disk of a case, and its name.
pub type Named = NamedDisk<MemDisk, Sign>;

/// An empty disk with such a name.
pub fn named_disk(alloc: Global, bytes: u64) -> Named {
    NamedDisk::new(MemDisk::new(alloc), Sign { bytes }, 0)
}

/// Answers a question about the disk.
pub fn ask_named(alloc: Global, disk: &mut Named, words: &str) -> Answer {
    let (word, rest) = two_words(words);
    match word {
        "to" => {
            *disk = named_disk(alloc, number(rest)?);
            done(alloc)
        }
        "missed" => spell_yes(alloc, disk.missed().is_some()),
        "bytes" => spell_part(alloc, disk.disk().bytes(), rest),
        _ => call_disk(alloc, disk, word, rest),
    }
}
