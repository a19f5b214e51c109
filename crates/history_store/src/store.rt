//! The type `Store`, and the calls that make, open, change and describe a store.

ghost use Rattle.std.specs.Prelude.{◌≡◌, ◌⊎◌, ◌↔◌, ◌∷◌, [], length};
ghost use Rattle.std.specs.Prelude.{IfOk, IfErr, OnOk, true, false};
ghost use Rattle.disk_model.specs.Disk.{IsImage, EachImage, LeavesOnly};
ghost use Rattle.disk_model.specs.View.{AtMost};

use crate::checking::{Next, Ready};
use crate::counting::{blocks_in_use, row_count};
use crate::known::find_new_rows;
use crate::latest::latest_time;
use crate::merge_in_progress::MergeInProgress;
use crate::preparing::{Prepared, scope_in};
use crate::read_index::ReadIndex;
use crate::reading::DiskRows;
use crate::refusal::Refusal;
use crate::starting::{Started, index_segments, start};
use as_of_index::ReadFault;
use blocks::{BlockCache, Slot};
use directory::{Directory, Layout};
use disk_model::Disk;
use history_model::Receipt;
use import_check::{ImportFault, NewRows, Release, Scope};
use rf2_rows::EffectiveTime;
use segment_index::{StoreIndex, Words};
use std::alloc::Global;
use std::marker::Model;
use store_image::{Loaded, add_segment, load, publish_directory};

/// The release history of a terminology, on a disk.
#[derive(Drop)]
pub struct Store<D: Disk> {
    pub(crate) alloc: Global,
    pub(crate) disk: D,
    pub(crate) cache: BlockCache,
    pub(crate) slot: Slot,
    pub(crate) directory: Directory,
    /// The places and postings of each segment's rows, in the directory's order.
    pub(crate) index: StoreIndex,
    /// The merge in progress, if there is one.
    pub(crate) merge: Option<MergeInProgress>,
    pub(crate) needs_reopen: bool,
}

impl<D: Disk> Model for Store<D> {
    ghost use Rattle.history_model.specs.Lists.{listed};
    ghost use Rattle.history_store.specs.Catalog.{catalog_of};
    ghost use Rattle.history_store.specs.StoreValue.{StoreValue, IsHeld};
    ghost use Rattle.history_store.specs.MergeInProgress.{merge_of, HasMerge, HasSameWords};

    ghost Value = { StoreValue D };

    ghost view = { λ s. record {
      disk = s.disk;
      history = record { imports = s.directory.imports; rows = listed s.index.lists };
      catalog = catalog_of s.directory (merge_of s.merge);
      needs_reopen = s.needs_reopen;
      cache = s.cache;
      words = s.index.words;
    } };

    ghost invariant = { λ s. IsHeld (D.view s.disk).is_honest (D.view s.disk).moments.state
        s.cache s.slot s.directory s.index.lists s.needs_reopen
        × HasMerge (D.view s.disk).is_honest (D.view s.disk).moments.state.now
        s.directory s.index.lists s.merge s.needs_reopen
        × HasSameWords s.index.words s.merge };
}

impl<D: Disk> Store<D> {
    ghost use Rattle.history_model.specs.History.{full};
    ghost use Rattle.history_model.specs.Brought.{IsLatestDay};
    ghost use Rattle.directory.specs.declared.layout.Layout.TheVariants as layouts;
    ghost use Rattle.directory.specs.Listings.{next_layout, number_of};
    ghost use Rattle.import_check.specs.NewRows.{IsAcceptedAs, IsRead};
    ghost use Rattle.import_check.specs.NewRows.{BringsByKey};
    ghost use Rattle.store_image.specs.Images.{Represents, RepresentsAs};
    ghost use Rattle.store_image.specs.Next.{IsRepeated};
    ghost use Rattle.history_store.specs.Catalog.{catalog_of, blocks_in_use};
    ghost use Rattle.history_store.specs.Prepared.{IsForLater, scope_of};
    ghost use Rattle.history_store.specs.Private.StoreValue.{directory_of, with_imports, with_rows};
    ghost use Rattle.history_store.specs.Private.Prepared.{IsPreparedFor};
    ghost use Rattle.blocks.specs.Outside.{SameOutside, StemsWithin};
    ghost use Rattle.blocks.specs.Extents.{byte_range};
    ghost use Rattle.directory.specs.Places.{extent_of};
    ghost use Rattle.blocks.specs.Slots.{slots_range};
    ghost use Rattle.history_store.specs.Written.{added_entries, added_ranges, StemsWithinAll};
    ghost use Rattle.history_store.specs.Private.Answers.{IsStep, IsNotFresh};
    ghost use Rattle.history_store.specs.Openings.{IsMaking, IsOpening};
    ghost use Rattle.history_store.specs.Crashes.{IsCrashSafe};
    ghost use Rattle.history_store.specs.Meters.{IsMeteredMaking, IsMeteredOpening};
    ghost use Rattle.history_store.specs.Meters.{IsMeteredReading, IsMeteredWrite};
    ghost use Rattle.history_store.specs.Meters.{IsMeteredImport};
    ghost use Rattle.history_store.specs.Answers.{IsStill, IsRefused};
    ghost use Rattle.history_store.specs.Answers.{IsImportOf, IsImportOnAnyDisk};
    ghost use Rattle.history_store.specs.Answers.{IsBeforeOrAfter, KeepsMoments, StemsWithinNew};
    ghost use Rattle.history_store.specs.Queries.{ForgetsWritten};
    ghost use Rattle.history_store.specs.Stored.{IsStored};

    /// Makes a store with this layout on an empty disk, which keeps words or leaves them out. First
    /// asks for the disk's length, then allocates all memory, then writes.
    pub fn create(
        alloc: Global,
        disk: D,
        layout: Layout,
        words: Words,
    ) -> Result<Store<D>, (Refusal, D)>
        // promise: a_refusal_names_its_cause, what_is_cached_is_not_read_again
        // promise: a_crash_leaves_the_old_or_the_new, few_calls_reach_the_disk
        // promise: a_failed_disk_is_told, a_new_store_is_empty
        ensures made { IsMaking layout result D.view disk }
        // promise: few_calls_reach_the_disk
        ensures words { IfOk result (λ s. s.words ≡ words) }
        ensures meters { IsMeteredMaking result D.view disk }
    {
        let mut disk = disk;
        match start(alloc, &mut disk, layout, words) {
            Ok(
                Started {
                    slot,
                    directory,
                    index,
                    cache,
                },
            ) => Ok(Store {
                alloc,
                disk,
                cache,
                slot,
                directory,
                index,
                merge: None,
                needs_reopen: false,
            }),
            Err(refusal) => Err((refusal, disk)),
        }
    }

    /// Opens the store that a disk represents, and keeps its words or leaves them out: only memory
    /// has them. Syncs the disk once and then reads it; every refusal returns the disk.
    pub fn open(alloc: Global, disk: D, words: Words) -> Result<Store<D>, (Refusal, D)>
        // promise: a_refusal_names_its_cause, what_is_cached_is_not_read_again
        // promise: a_confirmed_import_survives, a_crash_leaves_the_old_or_the_new
        // promise: a_store_is_opened_as_it_was_left, few_calls_reach_the_disk
        // promise: a_failed_disk_is_told, older_layouts_stay_readable
        ensures opened { IsOpening result D.view disk }
        ensures words { IfOk result (λ s. s.words ≡ words) }
        // promise: a_confirmed_import_survives, few_calls_reach_the_disk, reading_is_bounded
        ensures meters { IsMeteredOpening result D.view disk }
    {
        let mut disk = disk;
        let Loaded {
            slot,
            directory,
            segments,
        } = match load::<D, ReadIndex>(alloc, &mut disk, words) {
            Ok(loaded) => loaded,
            Err(fault) => return Err((Refusal::from(fault), disk)),
        };
        match index_segments(alloc, segments, words) {
            Ok((index, cache)) => Ok(Store {
                alloc,
                disk,
                cache,
                slot,
                directory,
                index,
                merge: None,
                needs_reopen: false,
            }),
            Err(error) => Err((Refusal::from(error), disk)),
        }
    }

    /// The rows of a release whose keys the store doesn't have.
    pub(crate) fn find_new_rows(&mut self, release: Release) -> Result<NewRows, Refusal>
        requires still { self.old.needs_reopen ≡ false }
        ensures accepted { (D.view self.old.disk).is_honest
            → IfOk result (IsAcceptedAs (full self.old.history) release) }
        // On every disk the new rows are those with new keys, and each other row may be stored.
        ensures brings { IfOk result
            (BringsByKey (full self.old.history) (IsStored D.view self.old) release) }
        ensures is_read { IfOk result (λ fresh. IsRead release) }
        ensures words { self.new.words ≡ self.old.words }
        ensures refused { IfErr result (λ e. IsNotFresh (D.view self.old.disk).is_honest
            (IsStored D.view self.old) e (full self.old.history) release) }
        ensures still { IfOk result (λ fresh. IsStill self.old self.new) }
        ensures closed { IfErr result (λ e. IsRefused e self.old self.new) }
        ensures meters { IsMeteredReading result release D.view self.old self.new }
    {
        let pin = self.directory.imports();
        let mut reader = DiskRows::new(
            &mut self.disk,
            &mut self.cache,
            &self.directory,
            &self.index,
        );
        match find_new_rows(self.alloc, release, self.index.places(), &mut reader, pin) {
            Ok(fresh) => Ok(fresh),
            Err(fault) => {
                if matches!(fault, ImportFault::Known(ReadFault::DiskFault)) {
                    self.needs_reopen = true;
                }
                Err(Refusal::from(fault))
            }
        }
    }

    /// Publishes the next directory, which lists the same segments.
    pub(crate) fn publish_without_segment(&mut self, next: Directory) -> Result<(), Refusal>
        requires still { self.old.needs_reopen ≡ false }
        requires next { IsRepeated (directory_of self.old) next }
        ensures step { IsStep result self.old self.new
            (with_imports self.old.history next.imports)
            (catalog_of next self.old.catalog.merge) }
        ensures words { self.new.words ≡ self.old.words }
        ensures crash { IsCrashSafe D.view
            (λ c. RepresentsAs self.old.catalog.layout self.old.history c
            ⊎ RepresentsAs next.layout (with_imports self.old.history next.imports) c)
            self.old self.new }
        ensures refused { (D.view self.old.disk).is_honest
            → KeepsMoments D.view result self.old self.new }
        ensures elsewhere { (D.view self.old.disk).is_honest → OnOk result
            (SameOutside (slots_range ∷ added_ranges self.old.catalog self.new.catalog)
            (D.view self.old.disk).moments.state.now (D.view self.new.disk).moments.state.now) }
        ensures inside { (D.view self.old.disk).is_honest
            → LeavesOnly (D.view self.old.disk).moments (D.view self.new.disk).moments
            (StemsWithin (D.view self.old.disk).moments.state slots_range) }
        // Reads the gate of a slot, and makes the six changing calls of a publication.
        ensures meters { IsMeteredWrite result (AtMost 1) 6
            (ForgetsWritten (added_entries self.old.catalog self.new.catalog))
            (D.view self.old.disk) (D.view self.new.disk) self.old.cache self.new.cache }
    {
        match publish_directory(&mut self.disk, self.slot, &next) {
            Ok(slot) => {
                self.cache.forget(slot.extent());
                self.slot = slot;
                self.directory = next;
                Ok(())
            }
            Err(fault) => {
                self.needs_reopen = true;
                Err(Refusal::from(fault))
            }
        }
    }

    /// Writes a segment, and publishes the directory that lists it.
    fn publish_with_segment(&mut self, prepared: Prepared) -> Result<(), Refusal>
        requires still { self.old.needs_reopen ≡ false }
        requires prepared { IsPreparedFor self.old prepared }
        ensures step { IsStep result self.old self.new
            (with_rows self.old.history prepared.index.rows)
            (catalog_of prepared.directory self.old.catalog.merge) }
        ensures words { self.new.words ≡ self.old.words }
        ensures crash { IsCrashSafe D.view
            (λ c. RepresentsAs self.old.catalog.layout self.old.history c
            ⊎ RepresentsAs (next_layout self.old.catalog.layout)
            (with_rows self.old.history prepared.index.rows) c) self.old self.new }
        ensures refused { (D.view self.old.disk).is_honest
            → KeepsMoments D.view result self.old self.new }
        ensures elsewhere { (D.view self.old.disk).is_honest → OnOk result
            (SameOutside (slots_range ∷ added_ranges self.old.catalog self.new.catalog)
            (D.view self.old.disk).moments.state.now (D.view self.new.disk).moments.state.now) }
        ensures inside { (D.view self.old.disk).is_honest
            → LeavesOnly (D.view self.old.disk).moments (D.view self.new.disk).moments
            (StemsWithinAll (D.view self.old.disk).moments.state
            (slots_range ∷ byte_range (extent_of prepared.entry) ∷ [])) }
        // Reads the gate of a slot, and makes two changing calls before those of a publication.
        ensures meters { IsMeteredWrite result (AtMost 1) 8
            (ForgetsWritten (added_entries self.old.catalog self.new.catalog))
            (D.view self.old.disk) (D.view self.new.disk) self.old.cache self.new.cache }
    {
        let Prepared {
            directory,
            entry,
            index,
            bytes,
        } = prepared;
        match add_segment(&mut self.disk, self.slot, &directory, entry, &bytes) {
            Ok(slot) => {
                self.cache.forget(entry.extent());
                self.cache.forget(slot.extent());
                self.slot = slot;
                self.directory = directory;
                self.index.add(index);
                Ok(())
            }
            Err(fault) => {
                self.needs_reopen = true;
                Err(Refusal::from(fault))
            }
        }
    }

    /// Imports a release: all of its rows, or none. All memory is allocated before the first write.
    pub fn import(&mut self, release: Release) -> Result<Receipt, Refusal>
        // promise: a_refusal_names_its_cause, a_release_is_taken_whole_or_not_at_all
        // promise: members_need_layout_3, bytes_are_those_of_the_layout
        // promise: older_layouts_stay_readable, free_blocks_are_found_again
        ensures answer { (D.view self.old.disk).is_honest
            → IsImportOf result self.old self.new release }
        ensures words { self.new.words ≡ self.old.words }
        // What is promised on every disk.
        // promise: a_refusal_names_its_cause, a_release_is_taken_whole_or_not_at_all
        // promise: members_need_layout_3, older_layouts_stay_readable, no_damage_is_invented
        ensures kept { IsImportOnAnyDisk (IsStored D.view self.old) result self.old self.new
            release }
        // A store below layout 3 is left unchanged, if the release has members of reference sets.
        ensures later { IsForLater (scope_of self.old.catalog) release → self.new ≡ self.old }
        // A crash at any moment leaves the history from before in the layout from before, or the
        // history with the release in the next layout; after `Ok` it leaves the latter.
        // promise: a_crash_leaves_the_old_or_the_new, a_failed_disk_is_told
        // promise: older_layouts_stay_readable
        ensures crash { IsCrashSafe D.view
            (IsBeforeOrAfter self.old.catalog.layout self.old.history release) self.old self.new }
        // If it is refused for a reason other than a disk failure, the images that a crash may
        // leave are unchanged.
        // promise: a_question_changes_nothing, few_calls_reach_the_disk
        ensures refused { (D.view self.old.disk).is_honest
            → KeepsMoments D.view result self.old self.new }
        // After `Ok` the disk is unchanged outside the slots and the added segment.
        // promise: nothing_is_written_elsewhere
        ensures elsewhere { (D.view self.old.disk).is_honest → OnOk result
            (SameOutside (slots_range ∷ added_ranges self.old.catalog self.new.catalog)
            (D.view self.old.disk).moments.state.now (D.view self.new.disk).moments.state.now) }
        // Whatever the result: a crash leaves an image that was possible before the call, or one
        // that differs from such an image only in the slots and the extent of the new segment.
        // promise: nothing_is_written_elsewhere
        ensures inside { (D.view self.old.disk).is_honest
            → LeavesOnly (D.view self.old.disk).moments (D.view self.new.disk).moments
            (λ c. IsImage (D.view self.old.disk).moments.state c
            ⊎ StemsWithinNew self.old.history self.old.catalog release
            (D.view self.old.disk).moments.state c) }
        // On every disk: eight changing calls if a row is new, and otherwise six; reads of blocks
        // of listed segments, through the cache, and of the gate of a slot.
        // promise: what_is_cached_is_not_read_again, few_calls_reach_the_disk, reading_is_bounded
        // promise: a_failed_disk_is_told
        ensures meters { IsMeteredImport result release D.view self.old self.new }
    {
        let Ready { receipt, next } = self.make_ready(release)?;
        match next {
            Next::WithoutSegment(directory) => self.publish_without_segment(directory)?,
            Next::WithSegment(prepared) => self.publish_with_segment(prepared)?,
        }
        Ok(receipt)
    }

    /// How many releases were imported.
    pub fn imports(&self) -> u32
        ensures { result ≡ self.now.history.imports }
    {
        self.directory.imports()
    }

    /// Which files of a release the store keeps.
    pub fn scope(&self) -> Scope
        // promise: files_are_taken_by_their_names
        ensures { result ≡ scope_of self.now.catalog }
    {
        scope_in(self.directory.layout())
    }

    /// The number of the layout on the disk: 1 for a store that was made in layout 1 and has
    /// published nothing since, 3 for one that was made in layout 3, and otherwise 2.
    pub fn layout_number(&self) -> u32
        // promise: older_layouts_stay_readable
        ensures { result ≡ number_of self.now.catalog.layout }
    {
        self.directory.layout_number()
    }

    /// How many segments the directory lists.
    pub fn segments(&self) -> u32
        ensures { result ≡ length self.now.catalog.entries }
    {
        self.directory.entries().len() as u32
    }

    /// How many blocks of the disk the store needs: those of the slots, which hold the directory,
    /// and those of the listed segments. Blocks reserved by a merge in progress aren't counted.
    pub fn blocks_in_use(&self) -> u64
        // promise: free_blocks_are_found_again
        ensures { result ≡ blocks_in_use self.now.catalog.entries }
    {
        blocks_in_use(self.directory.entries())
    }

    /// How many rows the store holds.
    pub fn row_count(&self) -> u64
        ensures { result ≡ length self.now.history.rows }
    {
        row_count(self.directory.entries())
    }

    /// The greatest effective time of all rows, of any kind; none if there are no rows. Goes over
    /// all places in memory, and reads no row.
    pub fn latest_time(&self) -> Option<EffectiveTime>
        // promise: a_receipt_counts_the_new_rows
        ensures { IsLatestDay result self.now.history.rows }
    {
        latest_time(self.index.places())
    }

    /// Whether the words of terms are kept, by which descriptions are found.
    pub fn keeps_words(&self) -> Words
        ensures { result ≡ self.now.words }
    {
        self.index.keeps_words()
    }

    /// Whether the disk failed in a call, so that the store has to be opened again.
    pub fn needs_reopen(&self) -> bool
        ensures { result ≡ self.now.needs_reopen }
    {
        self.needs_reopen
    }

    /// Returns the disk, without a call on it.
    pub fn close(self) -> D
        // promise: a_store_is_opened_as_it_was_left
        ensures disk { result ≡ self.disk }
        // Every image that a crash may leave represents what the store held.
        // promise: a_store_is_opened_as_it_was_left
        ensures stands { (D.view result).is_honest → self.needs_reopen ≡ false
            → EachImage (D.view result).moments.state
            (λ c. Represents c self.history self.catalog.layout self.catalog.epoch
            self.catalog.entries) }
    {
        self.disk
    }
}
