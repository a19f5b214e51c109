//! A folder with the folders of releases, as a source.

ghost use Rattle.std.specs.Prelude.{◌≡◌};
ghost use Rattle.command_line.specs.OnlyRead.{IsOnlyRead};

use crate::endings::Ending;
use crate::file_warning::warn_of_files;
use crate::host::{Host, Imported};
use crate::outline::{Outline, outline_of};
use crate::progress::tell_taken;
use crate::telling::{is_about_row, tell_row};
use crate::warning::{Days, tell_uncompared, tell_warnings};
use disk_model::Disk;
use history_store::{Receipt, Refusal, Store};
use import_check::{Release, Scope};
use line_server::{LineRefusal, Reply, ServeFault, Source, SourceFault};
use rf2_values::EffectiveTime;
use std::alloc::Global;
use std::io::{self, Write};

/// A source of the releases in the folders below one folder.
#[derive(Drop)]
pub struct FolderSource<'a, H: Host, E: Write> {
    pub host: &'a H,
    /// The folder that contains the releases' folders.
    pub dir: &'a str,
    /// Receives the reason why a release can't be read, and messages while one is imported.
    pub faults: &'a mut E,
    /// What is done with a release, for messages.
    pub doing: &'static str,
    /// Only print messages about what may be wrong.
    pub quiet: bool,
    /// The outline of the last release that was read, unless there was no memory for it.
    pub outline: Option<Outline>,
}

impl<'a, H: Host, E: Write> FolderSource<'a, H, E> {
    /// The releases below a folder.
    pub(crate) fn new(
        host: &'a H,
        dir: &'a str,
        faults: &'a mut E,
        doing: &'static str,
        quiet: bool,
    ) -> FolderSource<'a, H, E>
        ensures host { result.host.now ≡ host.now }
        ensures dir { result.dir.now ≡ dir.now }
    {
        FolderSource {
            host,
            dir,
            faults,
            doing,
            quiet,
            outline: None,
        }
    }

    /// Warns of what in the last release doesn't go with what the store has, if the release could be
    /// compared with the store: the task ended so. The store had rows up to a day before it.
    pub(crate) fn tell_warnings<D: Disk>(
        &mut self,
        alloc: Global,
        ended: Result<Ending, ServeFault>,
        before: Option<EffectiveTime>,
        store: &mut Store<D>,
    )
        ensures { IsOnlyRead D.view store.old.disk store.new.disk }
    {
        if !was_compared(ended) {
            return;
        }
        let days = Days {
            today: self.host.today(),
            before,
        };
        match &self.outline {
            Some(outline) => tell_warnings(alloc, outline, &days, store, self.faults),
            None => tell_uncompared(self.faults),
        }
    }

    /// Has an import listed beside the store of this name, if it was confirmed by this reply.
    pub(crate) fn list_import(
        &mut self,
        alloc: Global,
        store: &str,
        name: &str,
        outcome: &Result<Reply, LineRefusal>,
    ) {
        let Some(receipt) = receipt_of(outcome) else {
            return;
        };
        let imported = Imported {
            store,
            folder: self.dir,
            name,
            receipt,
        };
        self.host.list_import(alloc, &imported, self.faults);
    }

    /// Reports what was taken of a release, and what may be wrong with it by itself.
    fn tell_read(&mut self, release: &Release, scope: Scope)
        ensures host { self.new.host.now ≡ self.old.host.now }
        ensures dir { self.new.dir.now ≡ self.old.dir.now }
    {
        if !self.quiet {
            tell_taken(release, self.faults);
        }
        let latest = match &self.outline {
            Some(outline) => outline.latest(),
            None => None,
        };
        warn_of_files(release, latest, self.host.today(), scope, self.faults);
        if !self.quiet {
            let _ = writeln!(self.faults, "sctd: {}", self.doing);
        }
    }
}

/// The receipt that the outcome of an import has, if it was confirmed.
fn receipt_of(outcome: &Result<Reply, LineRefusal>) -> Option<Receipt> {
    match outcome {
        Ok(reply) => receipt_in(str::from_utf8(reply.last()).ok()?),
        Err(_) => None,
    }
}

/// The receipt in the line `OK` of an import.
fn receipt_in(line: &str) -> Option<Receipt> {
    let mut numbers = line.strip_prefix("OK ")?.strip_suffix('\n')?.split(' ');
    Some(Receipt {
        number: numbers.next()?.parse().ok()?,
        new: numbers.next()?.parse().ok()?,
        repeated: numbers.next()?.parse().ok()?,
    })
}

/// Whether a release was compared with the store: it was taken, or contradicts what is there.
fn was_compared(ended: Result<Ending, ServeFault>) -> bool {
    matches!(
        ended,
        Ok(Ending::Done) | Ok(Ending::Refused(LineRefusal::Store(Refusal::Contradiction { .. })))
    )
}

impl<H: Host, E: Write> Source for FolderSource<'_, H, E> {
    ghost is_honest = { λ s. (H.view s.host.now).is_honest };

    ghost releases = { λ s. (H.view s.host.now).releases s.dir.now };

    fn release(&mut self, alloc: Global, name: &str, scope: Scope) -> Result<Release, SourceFault> {
        let given = self
            .host
            .release(alloc, self.dir, name, scope, self.quiet, self.faults);
        if let Ok(release) = &given {
            self.outline = outline_of(alloc, &release.files).ok();
            self.tell_read(release, scope);
        }
        given
    }

    fn note_refusal(&mut self, alloc: Global, name: &str, scope: Scope, refusal: Refusal) {
        if !is_about_row(refusal) {
            return;
        }
        // Messages about the folder were printed when it was read the first time.
        let again = self
            .host
            .release(alloc, self.dir, name, scope, true, &mut io::sink());
        match again {
            Ok(release) => tell_row(&release.files, refusal, self.faults),
            Err(_) => tell_row(&[], refusal, self.faults),
        }
    }
}
