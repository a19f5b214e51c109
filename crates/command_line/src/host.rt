//! What the program can name: disks of stores, and folders of releases.

ghost use Rattle.std.specs.Prelude.{◌≡◌, ◌-◌, ℕ, All, IfOk, length, min};
ghost use Rattle.disk_model.specs.Disk.{raised_by};
ghost use Rattle.line_server.specs.Sources.{IsGiven};
ghost use Rattle.release_folder.specs.Names.{IsOfSnapshot};
ghost use Rattle.command_line.specs.Hosts.{HostView, IsRemoved, MakesAsBefore};
ghost use Rattle.command_line.specs.declared.host.Mode.TheVariants.{Open};

use disk_model::Disk;
use history_store::Receipt;
use import_check::{Release, Scope};
use line_server::SourceFault;
use release_folder::SnapshotFile;
use std::alloc::Global;
use std::io::{self, Write};

/// Which disk is asked for.
#[derive(Clone, Copy, Debug, PartialEq, Eq)]
pub enum Mode {
    /// The one that exists under the name.
    Open,
    /// The same, only to be read: nothing can be written to it, and others may read it meanwhile.
    OpenToRead,
    /// The same, or a new one if there is none.
    OpenOrMake,
    /// A new one, under a name that isn't in use.
    MakeNew,
}

/// An import that a store has confirmed.
#[derive(Clone, Copy, Debug)]
pub struct Imported<'a> {
    /// The name of the store.
    pub store: &'a str,
    /// The folder that has the release's folder.
    pub folder: &'a str,
    /// The name of the release.
    pub name: &'a str,
    /// What the store replied.
    pub receipt: Receipt,
}

/// The disks of stores and the folders of releases, by name. Where a call doesn't do what is asked
/// for, the reason goes to its `faults`.
pub trait Host {
    /// The disk of a store.
    type Disk: Disk + Drop;
    /// Has to be lent to ask for a disk, and counts that. Only who runs the program can make one.
    type Asked;
    /// What it does when it is asked.
    ghost view: { Self → HostView Self.Disk };
    /// How often a disk was asked for, whatever the result: a number of 64 bits, which stays at its
    /// greatest value.
    ghost count: { Self.Asked → ℕ };

    /// The disk with this name.
    fn open<E: Write>(
        &self,
        asked: &mut Self::Asked,
        mode: Mode,
        name: &str,
        faults: &mut E,
    ) -> Option<Self::Disk>
        // promise: a_command_does_what_its_words_say
        ensures answer { (view self.now).opens (count asked.old) mode name.now result }
        // Where a disk that exists is asked for, no name is taken or freed for a new one.
        // promise: a_command_does_what_its_words_say
        ensures names { mode ≡ Open
            → MakesAsBefore (view self.now) (count asked.old) (count asked.new) }
        // promise: a_command_does_what_its_words_say
        ensures asked { count asked.new ≡ raised_by (count asked.old) 1 };

    /// Makes sure that the name of a new disk survives a crash. Returns whether that is sure.
    fn settle<E: Write>(&self, alloc: Global, name: &str, faults: &mut E) -> bool
        ensures { (view self.now).settles name.now result };

    /// Removes the file of a disk that was made, which is given up for that. If its name no longer
    /// refers to it, or it can't be removed, nothing is removed, and the disk is returned.
    fn discard<E: Write>(&self, made: Self::Disk, faults: &mut E) -> Option<Self::Disk>
        // promise: a_command_does_what_its_words_say
        ensures { IsRemoved (view self.now) made result };

    /// Whether there is a folder in which releases can be looked for.
    fn has_folder<E: Write>(&self, folder: &str, faults: &mut E) -> bool
        // promise: a_command_does_what_its_words_say
        ensures { (view self.now).finds folder.now result };

    /// Reads the release in a folder below another one, with the files that the scope includes. The
    /// names of the files that are read and of those that aren't go to `faults`, too; if `quiet`,
    /// only those that may be a mistake.
    fn release<E: Write>(
        &self,
        alloc: Global,
        folder: &str,
        name: &str,
        scope: Scope,
        quiet: bool,
        faults: &mut E,
    ) -> Result<Release, SourceFault>
        ensures { (view self.now).is_honest
            → IsGiven result ((view self.now).releases folder.now scope name.now) };

    /// The Snapshot files of the package in a folder below another one, that the scope includes.
    fn snapshot<E: Write>(
        &self,
        alloc: Global,
        folder: &str,
        name: &str,
        scope: Scope,
        faults: &mut E,
    ) -> Result<Vec<SnapshotFile>, SourceFault>
        ensures { IfOk result (λ files. All (IsOfSnapshot scope) files.items) };

    /// Reads the bytes of one of these files from one on, at most so many; fewer only at its end.
    fn part<E: Write>(
        &self,
        alloc: Global,
        file: &SnapshotFile,
        from: u64,
        most: u64,
        faults: &mut E,
    ) -> Result<Vec<u8>, SourceFault>
        ensures { IfOk result
            (λ bytes. length bytes.items ≡ min most (file.now.bytes - from)) };

    /// The system error of the last call on the disk that failed, if one has failed.
    fn last_error(&self, disk: &Self::Disk) -> Option<io::Error>;

    /// The length of the file with this name, in bytes, if it can be read.
    fn size(&self, name: &str) -> Option<u64>;

    /// The day that it is, as a number of eight digits, if that is known. Only warnings rest on it.
    fn today(&self) -> Option<u32>;

    /// Adds an import to the list of imports beside its store. No reply rests on the list.
    fn list_import<E: Write>(&self, alloc: Global, imported: &Imported<'_>, faults: &mut E);

    /// Makes the list beside a copy of that beside the store `from`, if there is one, and says in it
    /// how many imports were copied, unless it is all. No reply rests on the list.
    fn list_copy<E: Write>(
        &self,
        alloc: Global,
        from: &str,
        to: &str,
        imports: Option<u32>,
        faults: &mut E,
    );
}
