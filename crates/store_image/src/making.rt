//! Making an empty store.

ghost use Rattle.std.specs.Prelude.{◌≡◌, ◌⊎◌, ◌↔◌, ◌+◌, ◌≤◌, [], length, IfOk, IfErr, OnOk};
ghost use Rattle.disk_model.specs.Disk.{EachImage, LeavesOnly};
ghost use Rattle.disk_model.specs.View.{Calls, Stays, AtMost};
ghost use Rattle.blocks.specs.Calls.{MakesCalls};
ghost use Rattle.blocks.specs.Outside.{StemsWithin};
ghost use Rattle.blocks.specs.Slots.{slots_range};
ghost use Rattle.history_model.specs.History.{no_history};
ghost use Rattle.store_image.specs.declared.fault.MakeFault.TheVariants as faults;
ghost use Rattle.store_image.specs.Images.{Represents};
ghost use Rattle.store_image.specs.OnDisk.{IsOnDisk};
ghost use Rattle.directory.specs.Listings.{empty_listing};
ghost use Rattle.store_image.specs.Answers.{IsMade, IsNewStore};
ghost use Rattle.store_image.specs.Answers.{CountsMaking, StaysIfRefused, LooksIfRefused};

use crate::content::content_of;
use crate::fault::MakeFault;
use blocks::{Slot, format_slots};
use directory::{Directory, Layout};
use disk_model::Disk;
use std::alloc::Global;

/// An empty store: its current slot and its directory.
#[derive(Drop)]
pub struct Made {
    /// The current slot.
    pub slot: Slot,
    /// The directory that its content lists.
    pub directory: Directory,
}

/// Checks that a disk is empty; `NotEmpty` if it isn't.
pub fn check_empty<D: Disk>(disk: &mut D) -> Result<(), MakeFault>
    ensures exact { (D.view disk.old).is_honest
        → IsMade result (D.view disk.old).moments.state.now }
    ensures refused { IfErr result (λ e. (e ≡ faults.NotEmpty) ⊎ (e ≡ faults.DiskFault)) }
    // promise: a_new_store_is_empty
    ensures moments { (D.view disk.old).is_honest
        → (D.view disk.new).moments ≡ (D.view disk.old).moments }
    ensures meters { Calls (CountsMaking result) Stays (AtMost 1)
        (D.view disk.old) (D.view disk.new) }
{
    if disk.len()? > 0 {
        return Err(MakeFault::NotEmpty);
    }
    Ok(())
}

/// Makes an empty store of this layout on an empty disk: asks for the disk's length, then allocates
/// all memory, then writes. So `OutOfMemory` leaves the disk empty. A crash before it returns may
/// leave anything.
pub fn make<D: Disk>(alloc: Global, disk: &mut D, layout: Layout) -> Result<Made, MakeFault>
    ensures made { IfOk result (λ made. (made.slot ≡ Slot.A)
        × (made.directory ≡ empty_listing layout)) }
    ensures exact { (D.view disk.old).is_honest
        → IsMade result (D.view disk.old).moments.state.now }
    ensures on_disk { (D.view disk.old).is_honest
        → IfOk result
        (λ made. IsOnDisk (D.view disk.new).moments.state made.slot made.directory []) }
    // Every image that a crash may leave represents the empty history.
    ensures stands { (D.view disk.old).is_honest
        → OnOk result (EachImage (D.view disk.new).moments.state
        (λ c. Represents c no_history layout 1 [])) }
    // A read then returns the two slots, and nothing after them.
    // promise: a_new_store_is_empty
    ensures bytes { (D.view disk.old).is_honest
        → OnOk result (IsNewStore layout (D.view disk.new).moments.state.now) }
    // promise: a_new_store_is_empty
    ensures refused { (D.view disk.old).is_honest
        → StaysIfRefused result (D.view disk.old).moments (D.view disk.new).moments }
    // A disk that isn't empty is unchanged, whatever the result, even if it fails.
    // promise: a_new_store_is_empty
    ensures untouched { (D.view disk.old).is_honest → 1 ≤ length (D.view disk.old).moments.state.now
        → (D.view disk.new).moments ≡ (D.view disk.old).moments }
    // Whatever the result, a crash changes nothing after the slots.
    // promise: a_new_store_is_empty
    ensures inside { (D.view disk.old).is_honest
        → LeavesOnly (D.view disk.old).moments (D.view disk.new).moments
        (StemsWithin (D.view disk.old).moments.state slots_range) }
    // promise: a_new_store_is_empty
    ensures calls { (D.view disk.old).is_honest
        → MakesCalls result 9 (D.view disk.old).moments (D.view disk.new).moments }
    // promise: reading_is_bounded
    ensures meters { Calls (CountsMaking result) Stays (AtMost 10)
        (D.view disk.old) (D.view disk.new) }
    // On every disk a refusal made one call at most: it asked for the length.
    // promise: reading_is_bounded
    ensures looked { LooksIfRefused result (D.view disk.old).other_calls
        (D.view disk.new).other_calls }
{
    check_empty(disk)?;
    let directory = Directory::new(alloc, layout)?;
    let content = content_of(&directory);
    let current = format_slots(disk, &content)?;
    Ok(Made {
        slot: current.slot,
        directory,
    })
}
