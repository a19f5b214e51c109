//! Disks in files, and releases in unpacked folders, which are below the folder `releases`. Names,
//! paths and texts are in quotes, and the scope is `basic` or `whole`.
//!
//! - `file-disk open NAME` opens a file as a disk, and `file-disk open-or-make NAME` makes it if
//!   there is none. They print `opened`, and the disk is then the one that is asked, or why the
//!   file can't be opened. `file-disk close` closes it, and `file-disk fault` prints the last fault
//!   of the system. The other words are those of `case_values::call_disk`: `write`, `fill`, `read`,
//!   `cut`, `sync` and `len`;
//! - `files folder PATH` creates a folder, `files link PATH TARGET` a link, and `files file PATH
//!   TEXT` a file, with the folder that it is in; `files bytes PATH` prints the bytes of a file,
//!   and `synced PATH` whether the folder of a file can be synced;
//! - `release SCOPE NAME` prints the kind, the name and the text of each file of a release, or
//!   `NoFolder`;
//! - `told SCOPE NAME` prints how many files a release has, and in a line for each file what a
//!   watcher is told of it; or why the release can't be read, which it can't be without a watcher
//!   either;
//! - `taken NAME` prints the kind of the files with a name, or `none`, in the basic scope and in
//!   the whole one, and `nearly NAME` whether a name is nearly one to take in each of them;
//! - `lacks MARK BEGINNING NAMES` prints whether files with these names, none of them in quotes,
//!   have one of concepts with the mark, which is `-` for none, and no name that begins so.

use case_files::{Answer, NoAnswer, two_words, unquoted};
use case_values::{
    call_disk, first_word, or_failed, spell_done, spell_hex, spell_option, spell_text,
};
use disk_model::{FileDisk, OpenFault, sync_folder_of};
use import_check::{ReleaseFile, Scope};
use release_folder::{
    FolderFault, Watcher, is_nearly_to_take, kind_to_take, lacks, read_folder, read_release,
};
use rf2_values::Kind;
use std::alloc::Global;
use std::fmt::Write;
use std::fs::{self, Files};
use std::io::{self, ErrorKind};
use std::rt::HostRuntime;

/// The folder in which all releases are.
const RELEASES: &str = "releases";

/// The text in quotes.
pub fn text_of(alloc: Global, quoted: &str) -> Result<String, NoAnswer> {
    let text = String::from_utf8(unquoted(alloc, quoted)?).ok();
    text.ok_or(NoAnswer::NoQuestion)
}

/// Writes a file into its folder, which is created if necessary.
fn write_file(rt: &HostRuntime, path: &str, bytes: &[u8]) -> io::Result<()> {
    if let Some((folder, _)) = path.rsplit_once('/') {
        fs::create_dir_all(rt, folder)?;
    }
    fs::write(rt, path, bytes)
}

/// Creates a folder, a file or a link, or prints the bytes of a file.
fn ask_path(rt: &HostRuntime, words: &str) -> Answer {
    let alloc = rt.alloc();
    let (word, rest) = first_word(words)?;
    let (path, text) = two_words(rest);
    let path = text_of(alloc, path)?;
    let path = path.as_str();
    match word {
        "bytes" => or_failed(
            alloc,
            fs::read(rt, path).map(|bytes| spell_hex(alloc, &bytes)),
        ),
        "folder" => spell_done(alloc, fs::create_dir_all(rt, path)),
        "file" => spell_done(alloc, write_file(rt, path, &unquoted(alloc, text)?)),
        "link" => spell_done(alloc, rt.symlink(text_of(alloc, text)?.as_str(), path)),
        _ => Err(NoAnswer::NoQuestion),
    }
}

/// What a watcher is told, a line for each file, as far as there is memory.
#[derive(Drop)]
struct Notes(String);

impl Watcher for Notes {
    fn reads(&mut self, name: &str) {
        let _ = write!(self.0, "\nreads {name}");
    }

    fn passes_over(&mut self, path: &str) {
        let _ = write!(self.0, "\npasses over {path}");
    }
}

/// What a watcher is told of a release.
fn spell_told(rt: &HostRuntime, scope: Scope, name: &str) -> Answer {
    let mut notes = Notes(String::new(rt.alloc()));
    match read_release(rt, rt.alloc(), RELEASES, name, scope, &mut notes) {
        Ok(release) => Ok(format!(in rt.alloc(); "{} files{}", release.files.len(), notes.0)?),
        Err(fault) => match read_folder(rt, rt.alloc(), RELEASES, name, scope) {
            Err(FolderFault::NoFolder) => Ok(format!(in rt.alloc(); "{fault}")?),
            _ => Ok(String::from_str(rt.alloc(), "read without a watcher")?),
        },
    }
}

/// The files of the release of a name.
fn spell_release(rt: &HostRuntime, scope: Scope, name: &str) -> Answer {
    let mut text = String::new(rt.alloc());
    match read_folder(rt, rt.alloc(), RELEASES, name, scope) {
        Ok(release) => {
            for file in &release.files {
                let kind = spell_kind(rt.alloc(), Some(file.kind))?;
                let bytes = spell_text(rt.alloc(), &file.bytes)?;
                writeln!(text, "{kind} {}: {bytes}", file.name)?;
            }
            Ok(text.trim_end().to_string(rt.alloc())?)
        }
        Err(fault) => Ok(format!(in rt.alloc(); "{fault:?}")?),
    }
}

/// Reads a release.
fn ask_release(rt: &HostRuntime, word: &str, words: &str) -> Answer {
    let (scope, name) = first_word(words)?;
    let name = text_of(rt.alloc(), name)?;
    let scope = match scope {
        "basic" => Scope::Basic,
        "whole" => Scope::Whole,
        _ => return Err(NoAnswer::NoQuestion),
    };
    match word {
        "release" => spell_release(rt, scope, name.as_str()),
        _ => spell_told(rt, scope, name.as_str()),
    }
}

/// The name of a kind.
fn spell_kind(alloc: Global, kind: Option<Kind>) -> Answer {
    let mut name = match kind {
        Some(kind) => format!(in alloc; "{kind:?}")?,
        None => String::from_str(alloc, "none")?,
    };
    name.make_ascii_lowercase();
    Ok(name)
}

/// Whether files without rows lack one of which the name has a beginning.
fn spell_lacking(alloc: Global, words: &str) -> Answer {
    let (mark, rest) = two_words(words);
    let (beginning, names) = two_words(rest);
    let mark = if mark == "-" { "" } else { mark };
    let mut files = Vec::new(alloc);
    for name in names.split_whitespace() {
        let kind = kind_to_take(name.as_bytes(), Scope::Whole).ok_or(NoAnswer::NoQuestion)?;
        let (name, bytes) = (String::from_str(alloc, name)?, Vec::new(alloc));
        files.push(ReleaseFile { name, kind, bytes })?;
    }
    let is_so = lacks(&files, mark.as_bytes(), beginning.as_bytes());
    Ok(format!(in alloc; "{is_so}")?)
}

/// What is printed for a name in the basic scope and in the whole one.
fn in_scopes(alloc: Global, word: &str, name: &[u8]) -> Answer {
    if word == "nearly" {
        let basic = is_nearly_to_take(name, Scope::Basic);
        let whole = is_nearly_to_take(name, Scope::Whole);
        return Ok(format!(in alloc; "{basic} {whole}")?);
    }
    let basic = spell_kind(alloc, kind_to_take(name, Scope::Basic))?;
    let whole = spell_kind(alloc, kind_to_take(name, Scope::Whole))?;
    Ok(format!(in alloc; "{basic} {whole}")?)
}

/// Why a file can't be opened.
fn word_of(fault: &OpenFault) -> &'static str {
    match fault {
        OpenFault::Busy => "busy",
        OpenFault::NotAFile => "not a file",
        OpenFault::System(error) if error.kind() == ErrorKind::NotFound => "not found",
        OpenFault::System(_) => "a fault of the system",
    }
}

/// Opens a file as the disk of the case, closes it, or makes a call on it.
fn ask_file_disk(rt: &HostRuntime, disk: &mut Option<FileDisk>, words: &str) -> Answer {
    let (word, rest) = two_words(words);
    let found = match (word, disk.as_mut()) {
        ("open", _) => FileDisk::open(rt, text_of(rt.alloc(), rest)?.as_str()),
        ("open-or-make", _) => FileDisk::open_or_make(rt, text_of(rt.alloc(), rest)?.as_str()),
        ("fault", Some(opened)) => return spell_option(rt.alloc(), opened.fault()),
        ("close", Some(_)) => {
            *disk = None;
            return Ok(String::from_str(rt.alloc(), "done")?);
        }
        (_, Some(opened)) => return call_disk(rt.alloc(), opened, word, rest),
        (_, None) => return Err(NoAnswer::NoQuestion),
    };
    let told = match found {
        Ok(opened) => {
            *disk = Some(opened);
            "opened"
        }
        Err(fault) => word_of(&fault),
    };
    Ok(String::from_str(rt.alloc(), told)?)
}

/// Answers a question about a disk in a file, files, releases and the names of files.
pub fn answer(rt: &HostRuntime, file: &mut Option<FileDisk>, word: &str, rest: &str) -> Answer {
    let alloc = rt.alloc();
    match word {
        "file-disk" => ask_file_disk(rt, file, rest),
        "files" => ask_path(rt, rest),
        "synced" => {
            let is_synced = sync_folder_of(rt, alloc, text_of(alloc, rest)?.as_str()).is_ok();
            Ok(format!(in alloc; "{is_synced}")?)
        }
        "release" | "told" => ask_release(rt, word, rest),
        "taken" | "nearly" => in_scopes(alloc, word, &unquoted(alloc, rest)?),
        "lacks" => spell_lacking(alloc, rest),
        _ => Err(NoAnswer::NoQuestion),
    }
}
