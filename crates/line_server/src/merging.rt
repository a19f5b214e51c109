//! The commands of a merge, and TRIM: replies with what the store returns.

ghost use Rattle.line_commands.specs.Commands.{Merge, Step, Publish, Abandon, Trim};
ghost use Rattle.line_server.specs.Private.{IsCarriedOut};

use crate::refusal::LineRefusal;
use crate::reply::Reply;
use crate::wording::{reply_done, reply_number};
use disk_model::Disk;
use history_store::Store;
use std::alloc::Global;

/// Begins a merge, and replies how many rows it has to merge.
pub(crate) fn answer_merge<D: Disk>(
    alloc: Global,
    store: &mut Store<D>,
) -> Result<Reply, LineRefusal>
    ensures { IsCarriedOut result D.view Merge store.old
        store.new }
{
    let left = store.merge_begin()?;
    Ok(reply_number(alloc, left))
}

/// Merges up to `rows` more rows, and replies how many are left.
pub(crate) fn answer_step<D: Disk>(
    alloc: Global,
    rows: u32,
    store: &mut Store<D>,
) -> Result<Reply, LineRefusal>
    ensures { IsCarriedOut result D.view (Step rows)
        store.old store.new }
{
    let left = store.merge_step(rows)?;
    Ok(reply_number(alloc, left))
}

/// Publishes the merged segment in place of the two.
pub(crate) fn answer_publish<D: Disk>(
    alloc: Global,
    store: &mut Store<D>,
) -> Result<Reply, LineRefusal>
    ensures { IsCarriedOut result D.view Publish store.old
        store.new }
{
    store.merge_publish()?;
    Ok(reply_done(alloc))
}

/// Abandons the merge.
pub(crate) fn answer_abandon<D: Disk>(
    alloc: Global,
    store: &mut Store<D>,
) -> Result<Reply, LineRefusal>
    ensures { IsCarriedOut result D.view Abandon store.old
        store.new }
{
    store.merge_abandon()?;
    Ok(reply_done(alloc))
}

/// Truncates the disk after the blocks in use.
pub(crate) fn answer_trim<D: Disk>(
    alloc: Global,
    store: &mut Store<D>,
) -> Result<Reply, LineRefusal>
    ensures { IsCarriedOut result D.view Trim store.old
        store.new }
{
    let _bytes = store.trim()?;
    Ok(reply_done(alloc))
}
