//! Merges the segments of a store.

ghost use Rattle.std.specs.Prelude.{◌≡◌, ◌+◌, OnOk};
ghost use Rattle.command_line.specs.Endings.{report};
ghost use Rattle.command_line.specs.Merging.{IsMergedTo, IsMergeTold, segments_of};
ghost use Rattle.command_line.specs.Private.{IsAtRest, IsMerging, HasMerged, Progresses};

use crate::endings::{Ending, refuse};
use crate::inspecting::tell_status;
use crate::telling::tell_segments;
use disk_model::Disk;
use history_store::{Refusal, Store};
use line_server::ServeFault;
use std::alloc::Global;
use std::io::Write;

/// How many rows one step merges.
const STEP_ROWS: u32 = 100_000;

/// Merges all rows of the merge in progress.
fn take_rows<D: Disk>(store: &mut Store<D>) -> Result<(), Refusal>
    requires { IsMerging store.old }
    ensures progress { Progresses D.view result store.old store.new }
    ensures taken { OnOk result
        ((segments_of store.new ≡ segments_of store.old) × HasMerged store.new) }
{
    let left = store.merge_left().unwrap_or(0);
    for _ in 0..left.div_ceil(STEP_ROWS as u64) {
        store.merge_step(STEP_ROWS)?;
    }
    Ok(())
}

/// Merges the two segments with the fewest rows.
fn merge_two<D: Disk>(store: &mut Store<D>) -> Result<(), Refusal>
    requires { IsAtRest store.old }
    ensures progress { Progresses D.view result store.old store.new }
    ensures merged { OnOk result
        ((segments_of store.new + 1 ≡ segments_of store.old) × IsAtRest store.new) }
{
    store.merge_begin()?;
    take_rows(store)?;
    store.merge_publish()
}

/// Merges until the store has at most `most` segments, and trims. Each merge is reported on
/// `faults`.
fn merge_to<D: Disk, E: Write>(
    path: &str,
    most: u32,
    store: &mut Store<D>,
    faults: &mut E,
) -> Result<(), Refusal>
    requires { IsAtRest store.old }
    ensures { IsMergedTo D.view most result store.old store.new }
{
    for _ in 0..store.segments().saturating_sub(most) {
        merge_two(store)?;
        tell_segments(path, store.segments(), faults);
    }
    store.trim()?;
    Ok(())
}

/// Merges the segments of an open store, and writes its status, or why that was refused.
pub(crate) fn merge<D: Disk, O: Write, E: Write>(
    alloc: Global,
    path: &str,
    most: u32,
    store: &mut Store<D>,
    output: &mut O,
    faults: &mut E,
) -> Result<Ending, ServeFault>
    requires { IsAtRest store.old }
    ensures { IsMergeTold D.view most store.old store.new.disk
        (report result (O.contents output.old) (O.contents output.new)) }
{
    match merge_to(path, most, store, faults) {
        Ok(()) => tell_status(alloc, store, output),
        Err(refusal) => refuse(alloc, output, refusal),
    }
}
