//! Imports and checks of a release, and the warnings behind their replies.

ghost use Rattle.line_commands.specs.Requests.{check_line, import_line};
ghost use Rattle.command_line.specs.Endings.{report};
ghost use Rattle.command_line.specs.Hosts.{source_in};
ghost use Rattle.command_line.specs.Tasks.{IsReleaseTold};

use crate::answering::{answer_read, carried_out};
use crate::check_source::CheckSource;
use crate::endings::{Ending, tell};
use crate::folder_source::FolderSource;
use crate::host::Host;
use disk_model::Disk;
use history_store::Store;
use line_commands::{check_request, import_request};
use line_server::ServeFault;
use std::alloc::Global;
use std::io::Write;

/// Imports a release into the open store of this name, adds that to the list beside the store, and
/// writes the reply. Then prints warnings for people.
pub(crate) fn import<D: Disk + Drop, H: Host, E: Write, O: Write>(
    alloc: Global,
    path: &str,
    name: &str,
    source: &mut FolderSource<'_, H, E>,
    store: &mut Store<D>,
    output: &mut O,
) -> Result<Ending, ServeFault>
    ensures { IsReleaseTold (source_in (H.view source.old.host.now) source.old.dir.now) D.view
        (import_line name.now) store.old store.new.disk
        (report result (O.contents output.old) (O.contents output.new)) }
{
    let before = store.latest_time();
    let outcome = carried_out(alloc, &import_request(name), source, store);
    source.list_import(alloc, path, name, &outcome);
    let ended = tell(alloc, output, outcome);
    source.tell_warnings(alloc, ended, before, store);
    ended
}

/// Checks a release against an open store, and writes the reply. Then prints all contradictions and
/// the warnings of an import for people.
pub(crate) fn check<D: Disk + Drop, H: Host, E: Write, O: Write>(
    alloc: Global,
    name: &str,
    source: &mut CheckSource<'_, H, E>,
    store: &mut Store<D>,
    output: &mut O,
) -> Result<Ending, ServeFault>
    ensures { IsReleaseTold (source_in (H.view source.old.folder.host.now)
        source.old.folder.dir.now) D.view (check_line name.now) store.old store.new.disk
        (report result (O.contents output.old) (O.contents output.new)) }
{
    let before = store.latest_time();
    let ended = answer_read(alloc, &check_request(name), source, store, output);
    source.tell_contradicting(alloc, name, store);
    source.folder.tell_warnings(alloc, ended, before, store);
    ended
}
