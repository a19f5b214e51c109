//! The content block of a case, the directory of a case, and calls that change it.
//!
//! The block has only zeros at first. BYTES and BYTE are in hexadecimal.
//! - `block filled BYTE` fills it with a byte, and `block put AT BYTES` replaces bytes of it;
//! - `block lists` prints the directory that it lists, which is then that of the case, or
//!   `BadDirectory`; `block lists-with AT BYTES` prints that for the block with other bytes at an
//!   offset, and `block lists-summed AT BYTES` with the right checksum of layout 3 as well;
//! - `block precedes EPOCH` prints whether it may be older than a directory of layout 1, of layout
//!   2 and of layout 3 at this epoch, and `block precedes-with EPOCH AT BYTES` does so with other
//!   bytes at an offset;
//! - `fit BLOCKS RESERVED ENTRIES` prints the first block of the first fit for this many blocks, or
//!   `Full`. An entry is its first block and its number of bytes, as in `4:46`, and so is the
//!   reserved extent, which is `-` if there is none;
//! - `directory new LAYOUT` begins with the directory of a new store; `directory advance IMPORTS`
//!   goes to its next epoch, and `directory upgrade` changes its layout to that of the next
//!   publication;
//! - `directory add FIRST BYTES ROWS` adds the entry of a segment without a checksum of its own,
//!   and `directory add FIRST BYTES ROWS CRC` the entry of a new segment with this CRC-32C, in
//!   hexadecimal; `directory merge FIRST BYTES ROWS` puts one in place of the only two; `directory
//!   put-back` puts these two back, with the layout and the epoch that the directory had then. All
//!   of these print the directory;
//! - `directory encode` writes the directory into the block, and prints the block: 16 bytes in each
//!   line, after the offset of the first. A line that isn't printed has only zeros.

ghost use Rattle.std.specs.Prelude.{◌≡◌, ◌<◌, IsTrue, IfOk, Some, length};
ghost use Rattle.blocks.specs.Extents.{block_count};
ghost use Rattle.directory.specs.Fit.{fit};
ghost use Rattle.directory.specs.Listings.{AreSums, HasForm, IsEntry, IsListing, form_in, form_of};
ghost use Rattle.directory.specs.Listings.{most_entries};
ghost use Rattle.directory.specs.Places.{extent_of};

use crate::case_state::Case;
use crate::slots::extent_of;
use blocks::{BLOCK_LIMIT, Extent};
use case_files::{Answer, NoAnswer, two_words};
use case_values::{
    byte_of, first_word, number, or_fault, read_hex, spell_block, spell_number, three_words,
};
use checksum::crc32c;
use directory::{Directory, Entry, Full, Layout, Sums, first_fit, may_precede};
use std::alloc::Global;
use std::fmt::Write;

/// The layout with this number.
pub fn layout_of(word: &str) -> Result<Layout, NoAnswer> {
    match word {
        "1" => Ok(Layout::One),
        "2" => Ok(Layout::Two),
        "3" => Ok(Layout::Three),
        _ => Err(NoAnswer::NoQuestion),
    }
}

/// Whether an entry of a directory of this layout may have these checksums.
fn may_have(layout: Layout, sums: Sums) -> bool
    ensures allowed { IsTrue result → AreSums sums }
    ensures form { IsTrue result → form_in sums ≡ form_of layout }
{
    match (layout, sums) {
        (Layout::Three, Sums::Nowhere) => false,
        (Layout::Three, Sums::Records) => true,
        (Layout::Three, Sums::Whole(sum)) => sum >= 2,
        (_, Sums::Nowhere) => true,
        (_, _) => false,
    }
}

/// Whether a directory of this layout may list the entry.
pub fn is_entry(layout: Layout, entry: Entry) -> bool
    ensures is { IsTrue result → IsEntry entry }
    ensures form { IsTrue result → HasForm layout entry }
{
    entry.first >= 4
        && entry.bytes > 0
        && entry.rows > 0
        && may_have(layout, entry.sums)
        && entry.extent().end() <= u64::from(BLOCK_LIMIT)
}

/// The checksums of a segment in a directory of this layout: those of a new one with this CRC-32C,
/// in hexadecimal, or those of one from before segments had a checksum of their own.
fn sums_of(layout: Layout, digits: &str) -> Result<Sums, NoAnswer> {
    match (layout, digits) {
        (Layout::Three, "") => Ok(Sums::Records),
        (_, "") => Ok(Sums::Nowhere),
        _ => {
            let crc = u32::from_str_radix(digits, 16).ok();
            Ok(layout.sums(crc.ok_or(NoAnswer::NoQuestion)?))
        }
    }
}

/// Reads an entry of a directory of this layout.
fn entry_of(layout: Layout, words: &str) -> Result<Entry, NoAnswer> {
    let (first, bytes, words) = three_words(words)?;
    let (rows, crc) = two_words(words);
    Ok(Entry {
        first: number(first)?,
        bytes: number(bytes)?,
        rows: number(rows)?,
        sums: sums_of(layout, crc)?,
    })
}

/// Whether a directory has room for an entry more.
fn has_room(directory: &Directory) -> bool
    ensures room { IsTrue result
        → length directory.now.entries < most_entries directory.now.layout }
    ensures listing { IsListing directory.now }
{
    directory.entries().len() < directory.layout().most_entries()
}

/// Whether an entry is the first fit beside the listed ones and a reserved extent.
fn is_fit(directory: &Directory, entry: Entry, reserved: Extent) -> bool
    ensures { IsTrue result → fit (block_count (extent_of entry)) directory.now.entries
        (Some reserved) ≡ Some entry.first }
{
    match first_fit(entry.extent().blocks(), directory.entries(), Some(reserved)) {
        Ok(first) => first == entry.first,
        Err(Full) => false,
    }
}

/// Adds an entry, unless its place is taken. All blocks before it are reserved here, so it is free
/// exactly if it is the first fit.
fn add(directory: &mut Directory, words: &str) -> Result<(), NoAnswer> {
    let entry = entry_of(directory.layout(), words)?;
    let bytes = entry.first.saturating_sub(4).saturating_mul(4096);
    let (layout, before) = (directory.layout(), Extent { first: 4, bytes });
    if !is_entry(layout, entry) || !has_room(directory) || !is_fit(directory, entry, before) {
        return Err(NoAnswer::NoQuestion);
    }
    directory.add(entry);
    Ok(())
}

/// Puts an entry in place of the only two.
fn merge(directory: &mut Directory, words: &str) -> Result<(), NoAnswer> {
    let entry = entry_of(directory.layout(), words)?;
    if directory.entries().len() != 2 || !is_entry(directory.layout(), entry) {
        return Err(NoAnswer::NoQuestion);
    }
    directory.replace_two(0, 1, entry);
    Ok(())
}

/// Puts the two entries from before a merge in place of the only one, with their layout and epoch.
fn put_back(directory: &mut Directory, before: &Directory) -> Result<(), NoAnswer> {
    let [first, second] = before.entries() else {
        return Err(NoAnswer::NoQuestion);
    };
    if directory.entries().len() != 1 {
        return Err(NoAnswer::NoQuestion);
    }
    directory.put_back(before.layout(), before.epoch(), 0, 1, *first, *second);
    Ok(())
}

/// A directory.
fn spell_directory(alloc: Global, directory: &Directory) -> Answer {
    let (layout, epoch) = (directory.layout_number(), directory.epoch());
    let imports = directory.imports();
    let mut text = format!(in alloc; "layout {layout}, epoch {epoch}, imports {imports}")?;
    for entry in directory.entries() {
        let (first, bytes, rows, form) = (entry.first, entry.bytes, entry.rows, entry.form());
        write!(text, "; in block {first}: {bytes} bytes, ")?;
        write!(text, "{rows} rows, {form:?}")?;
        if let Sums::Whole(sum) = entry.sums {
            write!(text, ", sum {sum:08x}")?;
        }
    }
    Ok(text)
}

/// Answers a question about the directory.
pub fn ask_directory(case: &mut Case, words: &str) -> Answer {
    let (word, rest) = two_words(words);
    if word == "new" {
        case.directory = Some(Directory::new(case.alloc, layout_of(rest)?)?);
    }
    let Some(directory) = &mut case.directory else {
        return Err(NoAnswer::NoQuestion);
    };
    match word {
        "new" => {}
        "advance" if directory.epoch() < u64::MAX => directory.advance(number(rest)?),
        "upgrade" => directory.upgrade(),
        "add" => add(directory, rest)?,
        "merge" => {
            case.before = Some(directory.try_clone(case.alloc)?);
            merge(directory, rest)?;
        }
        "put-back" => put_back(directory, case.before.as_ref().ok_or(NoAnswer::NoQuestion)?)?,
        "encode" => {
            directory.encode(&mut case.block);
            return spell_block(case.alloc, &case.block);
        }
        _ => return Err(NoAnswer::NoQuestion),
    }
    spell_directory(case.alloc, directory)
}

/// Puts bytes in place of others, from an offset on.
pub fn put_bytes(alloc: Global, bytes: &mut [u8], words: &str) -> Result<(), NoAnswer> {
    let (at, digits) = first_word(words)?;
    let put = read_hex(alloc, digits)?;
    let places = bytes.get_mut(number(at)?..).ok_or(NoAnswer::NoQuestion)?;
    if put.len() > places.len() {
        return Err(NoAnswer::NoQuestion);
    }
    for (place, byte) in places.iter_mut().zip(&put) {
        *place = *byte;
    }
    Ok(())
}

/// Writes the checksum of layout 3 at the end of a block.
fn put_sum(block: &mut [u8; 4096]) {
    let sum = crc32c(&block[..4092]).to_be_bytes();
    block[4092..].copy_from_slice(&sum);
}

/// Whether the block may be older than a directory of each layout at this epoch.
fn spell_older(alloc: Global, epoch: &str, block: &[u8; 4096]) -> Answer {
    let epoch = number(epoch)?;
    let one = may_precede(Layout::One, epoch, block);
    let two = may_precede(Layout::Two, epoch, block);
    let three = may_precede(Layout::Three, epoch, block);
    Ok(format!(in alloc; "{one} {two} {three}")?)
}

/// Answers a question about the block, or about one with other bytes.
pub fn ask_block(case: &mut Case, words: &str) -> Answer {
    let alloc = case.alloc;
    let (word, rest) = two_words(words);
    let (epoch, changed) = two_words(rest);
    let mut block = case.block;
    match word {
        "lists" => case.directory = Directory::decode(alloc, &block).ok(),
        "precedes" => {}
        "precedes-with" => put_bytes(alloc, &mut block, changed)?,
        "filled" => block = [byte_of(rest)?; 4096],
        _ => put_bytes(alloc, &mut block, rest)?,
    }
    if word == "lists-summed" {
        put_sum(&mut block);
    }
    match word {
        "lists" | "lists-with" | "lists-summed" => {
            let listed = Directory::decode(alloc, &block);
            or_fault(
                alloc,
                listed.map(|directory| spell_directory(alloc, &directory)),
            )
        }
        "precedes" | "precedes-with" => spell_older(alloc, epoch, &block),
        "filled" | "put" => {
            case.block = block;
            Ok(String::from_str(alloc, "done")?)
        }
        _ => Err(NoAnswer::NoQuestion),
    }
}

/// Reads an extent, as in `4:46`.
fn extent_in(word: &str) -> Result<Extent, NoAnswer> {
    let (first, bytes) = word.split_once(':').ok_or(NoAnswer::NoQuestion)?;
    extent_of(first, bytes)
}

/// Reads the entries of segments of one row, as in `4:46 5:46`.
fn entries_in(alloc: Global, words: &str) -> Result<Vec<Entry>, NoAnswer> {
    let mut entries = Vec::new(alloc);
    for word in words.split_whitespace() {
        let words = format!(in alloc; "{} 1", word.replace(alloc, ":", " ")?)?;
        entries.push(entry_of(Layout::Two, &words)?)?;
    }
    Ok(entries)
}

/// Where blocks fit.
pub fn spell_fit(alloc: Global, words: &str) -> Answer {
    let (blocks, words) = first_word(words)?;
    let (reserved, words) = two_words(words);
    let reserved = match reserved {
        "-" => None,
        word => Some(extent_in(word)?),
    };
    let found = first_fit(number(blocks)?, &entries_in(alloc, words)?, reserved);
    or_fault(
        alloc,
        found.map(|first| spell_number(alloc, u64::from(first))),
    )
}
