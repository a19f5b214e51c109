//! The source of a release that is checked, and its contradictions.

ghost use Rattle.command_line.specs.OnlyRead.{IsOnlyRead};

use crate::contradicting::{MOST_TOLD, files_without_bytes, tell_contradictions};
use crate::folder_source::FolderSource;
use crate::host::Host;
use disk_model::Disk;
use history_store::{Refusal, Store};
use import_check::{Release, Scope};
use line_server::{Source, SourceFault};
use std::alloc::Global;
use std::io::{self, Write};

/// The folder of a release that is checked. A contradiction for which the release is refused isn't
/// reported at once: all contradictions are, once the reply has been written.
#[derive(Drop)]
pub(crate) struct CheckSource<'a, H: Host, E: Write> {
    pub folder: FolderSource<'a, H, E>,
    /// The contradiction for which the release was refused, if it was refused for one.
    pub refused: Option<Refusal>,
}

impl<H: Host, E: Write> Source for CheckSource<'_, H, E> {
    ghost is_honest = { λ s. (H.view s.folder.host.now).is_honest };

    ghost releases = { λ s. (H.view s.folder.host.now).releases s.folder.dir.now };

    fn release(&mut self, alloc: Global, name: &str, scope: Scope) -> Result<Release, SourceFault> {
        self.folder.release(alloc, name, scope)
    }

    fn note_refusal(&mut self, alloc: Global, name: &str, scope: Scope, refusal: Refusal) {
        if matches!(refusal, Refusal::Contradiction { .. }) {
            self.refused = Some(refusal);
        } else {
            self.folder.note_refusal(alloc, name, scope, refusal);
        }
    }
}

impl<H: Host, E: Write> CheckSource<'_, H, E> {
    /// Reports all contradictions of a release, if the check was refused for one, for which it reads
    /// the release from its folder once more.
    pub(crate) fn tell_contradicting<D: Disk>(
        &mut self,
        alloc: Global,
        name: &str,
        store: &mut Store<D>,
    )
        ensures { IsOnlyRead D.view store.old.disk store.new.disk }
    {
        if self.refused.is_none() {
            return;
        }
        // Messages about the folder were printed when it was read the first time.
        let scope = store.scope();
        let again = self
            .folder
            .host
            .release(alloc, self.folder.dir, name, scope, true, &mut io::sink());
        match again {
            Ok(release) => self.tell_all(alloc, name, release, store),
            Err(_) => self.tell_one(alloc, name, scope),
        }
    }

    /// Reports the contradictions of a release.
    fn tell_all<D: Disk>(
        &mut self,
        alloc: Global,
        name: &str,
        release: Release,
        store: &mut Store<D>,
    )
        ensures { IsOnlyRead D.view store.old.disk store.new.disk }
    {
        let scope = store.scope();
        let Ok(files) = files_without_bytes(alloc, &release.files) else {
            self.tell_one(alloc, name, scope);
            return;
        };
        match store.contradictions(release, MOST_TOLD) {
            Ok(found) => tell_contradictions(alloc, &files, &found, store, self.folder.faults),
            Err(_) => self.tell_one(alloc, name, scope),
        }
    }

    /// Reports the contradiction for which the release was refused, as an import does, and that
    /// there may be others.
    fn tell_one(&mut self, alloc: Global, name: &str, scope: Scope) {
        if let Some(refused) = self.refused {
            self.folder.note_refusal(alloc, name, scope, refused);
            let _ = writeln!(
                self.folder.faults,
                "sctd: there may be more contradictions, which couldn't be looked for"
            );
        }
    }
}
