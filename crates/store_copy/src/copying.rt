//! Copying a store.

ghost use Rattle.std.specs.Prelude.{◌≡◌, ◌⊎◌, ◌↔◌, ◌+◌, ◌≤◌, ℕ, List, length};
ghost use Rattle.std.specs.Prelude.{IfOk, IfErr, OnOk};
ghost use Rattle.disk_model.specs.Disk.{IsImage, LeavesOnly};
ghost use Rattle.disk_model.specs.View.{Calls, Stays, Unsaid};
ghost use Rattle.blocks.specs.Slots.{slots_read};
ghost use Rattle.fault_counts.specs.Counting.{Counts};
ghost use Rattle.store_image.specs.Answers.{synced};
ghost use Rattle.store_image.specs.Images.{IsStore};
ghost use Rattle.store_image.specs.Kept.{bytes_listed};
ghost use Rattle.store_image.specs.OnDisk.{HasStore};
ghost use Rattle.store_copy.specs.Answers.{CountsSource, CountsTarget, HasCopy, IsCopyOf};
ghost use Rattle.store_copy.specs.Answers.{IsNotCopied, IsReadTwice, StaysUnlessFailed};
ghost use Rattle.store_copy.specs.Private.Writing.{IsChosen, IsChosenLayout, IsPlanned};

use crate::fault::CopyFault;
use crate::planning::check_room;
use crate::writing::write_copy;
use blocks::Slot;
use directory::{Directory, Layout};
use disk_model::Disk;
use std::alloc::Global;
use store_image::{Loaded, SegmentPlaces, check_empty, load};

/// How many of a store's imports are copied: as many as asked for, or all.
fn chosen(asked: Option<u32>, all: u32) -> Result<u32, CopyFault>
    ensures { IsChosen result asked all }
{
    match asked {
        None => Ok(all),
        Some(imports) => {
            if imports > all {
                return Err(CopyFault::NoSuchImport);
            }
            Ok(imports)
        }
    }
}

/// The layout of a copy: the one asked for, or the store's, which a copy never lowers.
fn chosen_layout(in_layout: Option<Layout>, own: Layout) -> Result<Layout, CopyFault>
    ensures { IsChosenLayout result in_layout own }
{
    match in_layout {
        None => Ok(own),
        Some(layout) => {
            if layout.number() < own.number() {
                return Err(CopyFault::LowerLayout);
            }
            Ok(layout)
        }
    }
}

/// What was read of a store, and the directory planned for its copy.
#[derive(Drop)]
struct Planned {
    slot: Slot,
    of: Directory,
    segments: Vec<SegmentPlaces>,
    copy: Directory,
}

/// Reads the store, and plans a copy of its first imports.
fn read_and_plan<S: Disk>(
    alloc: Global,
    source: &mut S,
    imports: Option<u32>,
    layout: Option<Layout>,
) -> Result<Planned, CopyFault>
    ensures read { (S.view source.old).is_honest → IfOk result
        (λ p. HasStore p.slot p.of p.segments.items (S.view source.old).moments.state.now) }
    // On every disk, the parts that were read are consistent, and the plan is consistent with them.
    ensures planned { IfOk result (λ p. IsPlanned imports layout p.of p.segments.items p.copy) }
    ensures refused { (S.view source.old).is_honest → IfErr result (λ e. (target : List ℕ)
        → length target ≡ 0
        → IsNotCopied e imports layout (S.view source.old).moments.state.now target) }
    ensures source { (S.view source.old).is_honest
        → ((S.view source.new).moments ≡ (S.view source.old).moments)
        ⊎ ((S.view source.new).moments ≡ synced (S.view source.old).moments) }
    ensures now { (S.view source.old).is_honest
        → (S.view source.new).moments.state.now ≡ (S.view source.old).moments.state.now }
    ensures any_moment { (S.view source.old).is_honest
        → LeavesOnly (S.view source.old).moments (S.view source.new).moments
        (IsImage (S.view source.old).moments.state) }
    ensures meters { Calls (Counts CountsSource result)
        (λ before after. IfOk result
        (λ p. after ≤ before + slots_read + bytes_listed p.of.entries)) Unsaid
        (S.view source.old) (S.view source.new) }
    // No error is one of the target disk.
    ensures target_failures { (n : ℕ) → Counts CountsTarget result n n }
{
    let Loaded {
        slot,
        directory: of,
        segments,
    } = load::<S, SegmentPlaces>(alloc, source, ())?;
    let imports = chosen(imports, of.imports())?;
    let layout = chosen_layout(layout, of.layout())?;
    check_room(imports, segments.as_slice())?;
    let mut copy = Directory::new(alloc, layout)?;
    copy.advance(imports);
    Ok(Planned {
        slot,
        of,
        segments,
        copy,
    })
}

/// Copies the first imports of a store, or all if no number is given, to an empty disk, and returns
/// the directory of the copy. The copy has the layout that is asked for, or the store's if none is
/// given, and the rows that these imports brought, with their import numbers. It has one segment
/// for each of the store's segments in which there are such rows, one directly after the other,
/// each as an import of its rows would write and list it. The store is read twice, each time
/// through a buffer of fixed size: first as an opening reads it, and then once more, where each row
/// has to have the key, the import number and the length of its place. The calls on its disk are
/// reads, one sync and requests for its length.
pub fn copy<S: Disk, T: Disk>(
    alloc: Global,
    source: &mut S,
    target: &mut T,
    imports: Option<u32>,
    layout: Option<Layout>,
) -> Result<Directory, CopyFault>
    // After `Ok` every crash leaves the copy.
    // promise: a_copy_is_whole_and_the_same
    ensures copied { (S.view source.old).is_honest → (T.view target.old).is_honest → IfOk result
        (λ copy. HasCopy imports layout (S.view source.old).moments.state.now copy
        (T.view target.new).moments.state) }
    // A crash at any moment leaves what it might have left before, no store, or the whole copy.
    // promise: a_copy_is_whole_and_the_same
    ensures any_moment { (S.view source.old).is_honest → (T.view target.old).is_honest
        → LeavesOnly (T.view target.old).moments (T.view target.new).moments
        (λ c. IsImage (T.view target.old).moments.state c ⊎ (IsStore c → ⊥)
        ⊎ IsCopyOf imports layout (S.view source.old).moments.state.now c) }
    // The target has to be empty.
    // promise: a_copy_is_whole_and_the_same
    ensures empty { (T.view target.old).is_honest
        → OnOk result (length (T.view target.old).moments.state.now ≡ 0) }
    // promise: a_copy_is_whole_and_the_same
    ensures refused { (S.view source.old).is_honest → (T.view target.old).is_honest → IfErr result
        (λ e. IsNotCopied e imports layout (S.view source.old).moments.state.now
        (T.view target.old).moments.state.now) }
    // If it is refused for a reason other than a disk failure or lack of memory, the target is
    // unchanged.
    // promise: a_copy_is_whole_and_the_same
    ensures stays { (S.view source.old).is_honest → (T.view target.old).is_honest
        → StaysUnlessFailed result (T.view target.old).moments (T.view target.new).moments }
    // The source is only read and synced: reads return what they returned before, and a crash
    // leaves what it might have left before.
    // promise: a_copy_is_whole_and_the_same
    ensures source { (S.view source.old).is_honest
        → ((S.view source.new).moments ≡ (S.view source.old).moments)
        ⊎ ((S.view source.new).moments ≡ synced (S.view source.old).moments) }
    // promise: a_copy_is_whole_and_the_same
    ensures source_any_moment { (S.view source.old).is_honest
        → LeavesOnly (S.view source.old).moments (S.view source.new).moments
        (IsImage (S.view source.old).moments.state) }
    // After `Ok`, on every disk: it has read the slots, and each byte of the segments twice, at most.
    // promise: reading_is_bounded, a_copy_is_whole_and_the_same
    ensures source_meters { Calls (Counts CountsSource result)
        (λ before after. IfOk result
        (λ copy. IsReadTwice (S.view source.old).is_honest
        (S.view source.old).moments.state.now copy before after)) Unsaid
        (S.view source.old) (S.view source.new) }
    // promise: a_copy_is_whole_and_the_same
    ensures target_meters { Calls (Counts CountsTarget result) Stays Unsaid
        (T.view target.old) (T.view target.new) }
{
    check_empty(target)?;
    let Planned {
        of,
        segments,
        mut copy,
        ..
    } = read_and_plan(alloc, source, imports, layout)?;
    let from = of.entries();
    write_copy(alloc, source, from, segments.as_slice(), target, &mut copy)?;
    Ok(copy)
}
