//! Laws of the definitions, each the contract of a function that does nothing.

ghost use Rattle.store_copy.specs.Laws.{CopyRepresents, EachCrashLeavesACopy};
ghost use Rattle.store_copy.specs.Laws.{EachSegmentIsSummed};
ghost use Rattle.store_copy.specs.Laws.{AllImportsAreAll, FirstImportsAreReleases};
ghost use Rattle.store_copy.specs.Laws.{PinsStay, ReceiptsStay};

/// A copy represents the history of the first imports, in the layout of the store or in the higher
/// one that was asked for.
pub fn copy_represents()
    // promise: a_copy_is_whole_and_the_same
    ensures { CopyRepresents }
{}

/// Every image that a crash may leave of a disk with a copy is a copy.
pub fn each_crash_leaves_a_copy()
    // promise: a_copy_is_whole_and_the_same
    ensures { EachCrashLeavesACopy }
{}

/// In layout 3 each segment of a copy has a checksum of all its bytes.
pub fn each_segment_is_summed()
    // promise: a_copy_is_whole_and_the_same
    ensures { EachSegmentIsSummed }
{}

/// The first imports of a history are those of the first releases.
pub fn first_imports_are_releases()
    // promise: a_copy_is_whole_and_the_same
    ensures { FirstImportsAreReleases }
{}

/// All imports of a history are the history.
pub fn all_imports_are_all()
    // promise: a_copy_is_whole_and_the_same
    ensures { AllImportsAreAll }
{}

/// A pin that is at most the number of copied imports shows the same in the copy.
pub fn pins_stay()
    // promise: a_copy_is_whole_and_the_same
    ensures { PinsStay }
{}

/// The receipts of the copied imports are the same in the copy.
pub fn receipts_stay()
    // promise: a_copy_is_whole_and_the_same
    ensures { ReceiptsStay }
{}
