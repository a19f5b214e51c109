//! The list of imports beside a store: a file that has the name of the store's and `.imports`.

ghost use Rattle.std.specs.Prelude.{◌+◌, ◌≤◌, IfOk, length};

use crate::calendar::{SECONDS_OF_DAY, day_after_first};
use crate::file_names::remove_made;
use crate::files::{make_new, make_private};
use crate::host::Imported;
use crate::list_text::{Entry, FIRST_LINE, back_line, entry_line, is_list, is_listed, whole_lines};
use crate::release_digest::digest_of;
use disk_model::{Disk, DiskFault, FileDisk, MAX_END, OpenFault, sync_folder_of};
use shown_names::Shown;
use std::alloc::{AllocError, Global};
use std::env::{self, Env, VarError};
use std::fs::{self, File, Files};
use std::io::{self, ErrorKind, Write};
use std::os::unix::fs::MetadataExt;
use std::time::Clock;

/// A list with more bytes isn't read, and not written to.
const LONGEST: u64 = 67_108_864;

/// What stands for something that isn't known.
const UNKNOWN: &str = "-";

/// The folder that the system has for this process, which belongs to its user.
const OWN_PROCESS: &str = "/proc/self";

/// The longest name of a user that a list has.
const LONGEST_NAME: usize = 200;

/// Adds the line of an import to the list beside its store. What can't be done is told.
pub(crate) fn add_import<R, E: Write>(
    rt: &R,
    alloc: Global,
    imported: &Imported<'_>,
    faults: &mut E,
)
where
    R: Files<File = File> + Clock + Env + AllocGlobal + Clone + Drop,
{
    let store = Shown(imported.store.as_bytes());
    let digits = match digits_of(rt, alloc, imported) {
        Ok(digits) => Some(digits),
        Err(error) => {
            let _ = writeln!(
                faults,
                "sctd: warning: {store}.imports: no digest of the release's files: {error}"
            );
            None
        }
    };
    if let Err(error) = add_line(rt, alloc, imported, digits) {
        let _ = writeln!(
            faults,
            "sctd: warning: {store}.imports: the import isn't listed: {error}"
        );
    }
}

/// Makes the list of a copy of a store: the store's list, if it has one, and if so many imports were
/// copied, a line that says so. What can't be done is told.
pub(crate) fn copy_list<R, E: Write>(
    rt: &R,
    alloc: Global,
    from: &str,
    to: &str,
    imports: Option<u32>,
    faults: &mut E,
)
where
    R: Files<File = File> + Clock + AllocGlobal,
{
    if let Err(error) = make_copy(rt, alloc, from, to, imports) {
        let (from, to) = (Shown(from.as_bytes()), Shown(to.as_bytes()));
        let _ = writeln!(
            faults,
            "sctd: warning: {from}.imports isn't copied to {to}.imports: {error}"
        );
    }
}

/// The digest of a release's files, in hexadecimal digits.
fn digits_of<R: Files<File = File> + AllocGlobal + Clone + Drop>(
    rt: &R,
    alloc: Global,
    imported: &Imported<'_>,
) -> io::Result<String> {
    let root = format!(in alloc; "{}/{}", imported.folder, imported.name)?;
    let digest = digest_of(rt, alloc, &root)?;
    Ok(hex::encode(alloc, digest)?)
}

/// Adds the line of an import, with this digest.
fn add_line<R: Files<File = File> + Clock + Env + AllocGlobal>(
    rt: &R,
    alloc: Global,
    imported: &Imported<'_>,
    digits: Option<String>,
) -> io::Result<()> {
    let (time, who) = (time_now(rt, alloc)?, asking_user(rt, alloc)?);
    let digest = match &digits {
        Some(digits) => digits.as_str(),
        None => UNKNOWN,
    };
    let entry = Entry {
        receipt: imported.receipt,
        time: &time,
        name: imported.name,
        digest,
        who: &who,
    };
    let line = entry_line(alloc, entry)?;
    let number = imported.receipt.number;
    append(
        rt,
        alloc,
        &list_of(alloc, imported.store)?,
        number,
        line.as_bytes(),
    )
}

/// The name of the list of a store.
fn list_of(alloc: Global, store: &str) -> Result<String, AllocError> {
    format!(in alloc; "{store}.imports")
}

/// The time in UTC, by the system's clock.
fn time_now<R: Clock>(rt: &R, alloc: Global) -> io::Result<String> {
    let seconds = rt.since_1970()?.as_secs();
    let Some(day) = day_after_first(seconds / SECONDS_OF_DAY) else {
        return Err(io::Error::other("the clock is behind the year 9999"));
    };
    let (year, month, date) = (day / 10_000, day / 100 % 100, day % 100);
    let (hour, minute, second) = (seconds / 3600 % 24, seconds / 60 % 60, seconds % 60);
    let text = format!(in alloc;
        "{year:04}-{month:02}-{date:02}T{hour:02}:{minute:02}:{second:02}Z"
    )?;
    Ok(text)
}

/// The user who asked: the one that `sudo` names, or the one whose process this is.
fn asking_user<R: Files<File = File> + Env + AllocGlobal>(
    rt: &R,
    alloc: Global,
) -> Result<String, AllocError> {
    match env::var(rt, "SUDO_USER") {
        Ok(name) if is_plain(name.as_bytes()) => return format!(in alloc; "user {name}"),
        Err(VarError::OutOfMemory) => return Err(AllocError),
        _ => {}
    }
    match fs::metadata(rt, OWN_PROCESS) {
        Ok(own) => format!(in alloc; "user {}", own.uid()),
        Err(_) => String::from_str(alloc, UNKNOWN),
    }
}

/// Whether a list may have this as the name of a user.
fn is_plain(name: &[u8]) -> bool {
    !name.is_empty() && name.len() <= LONGEST_NAME && name.iter().all(u8::is_ascii_graphic)
}

/// Adds the line of an import to the list of this name, or makes it, unless it has that already. What
/// stands behind its last whole line is cut off before.
fn append<R: Files<File = File> + AllocGlobal>(
    rt: &R,
    alloc: Global,
    path: &str,
    number: u32,
    line: &[u8],
) -> io::Result<()> {
    let is_new = fs::symlink_metadata(rt, path).is_err();
    // If this fails, opening the file reports why.
    let _ = make_private(rt, path);
    let mut disk = opened(FileDisk::open_or_make(rt, path))?;
    let text = text_of(alloc, &mut disk)?;
    let whole = whole_lines(&text);
    if is_listed(&text[..whole], number, line) {
        return Ok(());
    }
    let mut added = Vec::new(alloc);
    if whole == 0 {
        added.extend_from_slice(FIRST_LINE)?;
    }
    added.extend_from_slice(line)?;
    put(&mut disk, whole as u64, &added)?;
    if is_new {
        sync_folder_of(rt, alloc, path)?;
    }
    Ok(())
}

/// Makes the list of a copy.
fn make_copy<R: Files<File = File> + Clock + AllocGlobal>(
    rt: &R,
    alloc: Global,
    from: &str,
    to: &str,
    imports: Option<u32>,
) -> io::Result<()> {
    let Some(mut text) = found(rt, alloc, &list_of(alloc, from)?)? else {
        return Ok(());
    };
    text.truncate(whole_lines(&text));
    if text.is_empty() {
        return Ok(());
    }
    if let Some(imports) = imports {
        let time = time_now(rt, alloc)?;
        text.extend_from_slice(back_line(alloc, imports, &time)?.as_bytes())?;
    }
    make(rt, alloc, &list_of(alloc, to)?, &text)
}

/// The text of the list of this name, if there is one.
fn found<R: Files<File = File>>(rt: &R, alloc: Global, path: &str) -> io::Result<Option<Vec<u8>>> {
    match fs::metadata(rt, path) {
        // A FIFO would be waited for.
        Ok(metadata) if !metadata.is_file() => return Err(error_of(OpenFault::NotAFile)),
        Ok(_) => {}
        Err(error) if error.kind() == ErrorKind::NotFound => return Ok(None),
        Err(error) => return Err(error),
    }
    let mut disk = opened(FileDisk::open_to_read(rt, path))?;
    Ok(Some(text_of(alloc, &mut disk)?))
}

/// Makes a file of this name with a text, if the name isn't in use.
fn make<R: Files<File = File> + AllocGlobal>(
    rt: &R,
    alloc: Global,
    path: &str,
    text: &[u8],
) -> io::Result<()> {
    let made = make_new(rt, path)?;
    match fill(rt, path, text) {
        Ok(()) => sync_folder_of(rt, alloc, path),
        Err(error) => {
            let _ = remove_made(rt, path, &made);
            Err(error)
        }
    }
}

/// Writes a text into an empty file.
fn fill<R: Files<File = File>>(rt: &R, path: &str, text: &[u8]) -> io::Result<()> {
    let mut disk = opened(FileDisk::open(rt, path))?;
    put(&mut disk, 0, text)
}

/// The file of a list, or why it can't be opened.
fn opened(disk: Result<FileDisk, OpenFault>) -> io::Result<FileDisk> {
    match disk {
        Ok(disk) => Ok(disk),
        Err(fault) => Err(error_of(fault)),
    }
}

/// The error for a file that can't be opened.
fn error_of(fault: OpenFault) -> io::Error {
    match fault {
        OpenFault::System(error) => error,
        OpenFault::NotAFile => io::Error::other("not a regular file"),
        OpenFault::Busy => io::Error::other("in use by another process"),
    }
}

/// The whole text of a file, which has to be a list of imports.
fn text_of(alloc: Global, disk: &mut FileDisk) -> io::Result<Vec<u8>>
    ensures { IfOk result (λ text. length text.items ≤ LONGEST) }
{
    let Ok(length) = disk.len() else {
        return Err(error_on(disk));
    };
    if length > LONGEST {
        return Err(io::Error::other("it is longer than 64 MiB"));
    }
    let mut text = vec![in alloc; 0; length as usize]?;
    let Ok(count) = disk.read_at(0, &mut text) else {
        return Err(error_on(disk));
    };
    text.truncate(count);
    if !is_list(&text) {
        return Err(io::Error::other("it is no list of imports that this program knows"));
    }
    Ok(text)
}

/// The error of the last call on a file that failed.
fn error_on(disk: &FileDisk) -> io::Error {
    disk.fault().unwrap_or(io::Error::from(ErrorKind::Other))
}

/// Makes this text what a file has from a byte on, and syncs it. If that fails, nothing is left of
/// the text, if that can be done.
fn put(disk: &mut FileDisk, at: u64, text: &[u8]) -> io::Result<()>
    requires { at ≤ LONGEST }
{
    if text.len() as u64 > LONGEST {
        return Err(io::Error::other("it would be longer than 64 MiB"));
    }
    match write_from(disk, at, text) {
        Ok(()) => Ok(()),
        Err(_) => {
            let error = error_on(disk);
            let _ = disk.cut(at);
            Err(error)
        }
    }
}

/// Writes a text from a byte of a file on, which becomes its end, and syncs the file.
fn write_from(disk: &mut FileDisk, at: u64, text: &[u8]) -> Result<(), DiskFault>
    requires { at + length text.now ≤ MAX_END }
{
    disk.cut(at)?;
    disk.write_at(at, text)?;
    disk.sync()
}
