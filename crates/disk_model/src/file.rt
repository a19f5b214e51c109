ghost use Rattle.std.specs.Prelude.{◌≡◌, ◌≤◌, Some, length, IfOk, IsErr, MatchResult};
ghost use Rattle.fault_counts.specs.Counting.{CountsEach};

use crate::size_limit::{SizeLimit, size_limit};
use crate::{Disk, DiskFault, OpenFault};
use fault_counts::raised;
use std::fs::{File, Metadata, OpenOptions};
use std::io::{self, ErrorKind};
use std::os::unix::fs::FileExt;
use std::rt::Files;

/// How often an interrupted read or write is retried before it counts as a failure.
const MAX_INTERRUPTIONS: u32 = 1_000;

/// A file of the system. It is locked as long as the disk exists: no other `FileDisk` can use the
/// same file, in this process or in another one, unless both are only read. The system releases the
/// lock when the process ends, however it ends. Programs that take no lock aren't kept out. Nothing
/// is specified about the file's bytes.
#[derive(Drop)]
pub struct FileDisk {
    file: File,
    /// How long the system lets this process make a file.
    limit: SizeLimit,
    failures: u64,
    last: Option<io::Error>,
    bytes_read: u64,
    other_calls: u64,
}

/// Who else may use a file while it is a disk.
#[derive(Clone, Copy)]
enum Sharing {
    /// No other disk.
    Alone,
    /// Disks that are only read.
    WithReaders,
}

impl FileDisk {
    ghost use Rattle.disk_model.specs.FileDisk.{file_view, fault_of};
    ghost use Rattle.disk_model.specs.View.{IsUnused};

    /// Opens an existing file for reading and writing.
    pub fn open<R: Files<File = File>>(rt: &R, path: &str) -> Result<FileDisk, OpenFault>
        ensures unused { IfOk result (λ disk. IsUnused (file_view disk)) }
    {
        let file = OpenOptions::new().read(true).write(true).open(rt, path);
        FileDisk::of(file, Sharing::Alone, size_limit(rt))
    }

    /// Opens an existing file for reading alone, which others may do at the same time: each call
    /// that would change it fails.
    pub fn open_to_read<R: Files<File = File>>(rt: &R, path: &str) -> Result<FileDisk, OpenFault>
        ensures unused { IfOk result (λ disk. IsUnused (file_view disk)) }
    {
        let file = OpenOptions::new().read(true).open(rt, path);
        FileDisk::of(file, Sharing::WithReaders, size_limit(rt))
    }

    /// Opens a file for reading and writing, or makes an empty one if there is none.
    pub fn open_or_make<R: Files<File = File>>(rt: &R, path: &str) -> Result<FileDisk, OpenFault>
        ensures unused { IfOk result (λ disk. IsUnused (file_view disk)) }
    {
        let file = OpenOptions::new()
            .read(true)
            .write(true)
            .create(true)
            .open(rt, path);
        FileDisk::of(file, Sharing::Alone, size_limit(rt))
    }

    /// Locks the file, and waits until the storage disk has what earlier processes wrote, before
    /// anything is read. Refuses anything but a regular file.
    fn of(
        opened: io::Result<File>,
        sharing: Sharing,
        limit: SizeLimit,
    ) -> Result<FileDisk, OpenFault>
        ensures unused { IfOk result (λ disk. IsUnused (file_view disk)) }
    {
        let file = opened?;
        if !file.metadata()?.is_file() {
            return Err(OpenFault::NotAFile);
        }
        match sharing {
            Sharing::Alone => file.try_lock()?,
            Sharing::WithReaders => file.try_lock_shared()?,
        }
        file.sync_all()?;
        Ok(FileDisk {
            file,
            limit,
            failures: 0,
            last: None,
            bytes_read: 0,
            other_calls: 0,
        })
    }

    /// What the system says of the file itself, whatever has its name by now.
    pub fn metadata(&self) -> io::Result<Metadata> {
        self.file.metadata()
    }

    /// The system error of the last call that failed, if one has failed.
    pub fn fault(&self) -> Option<io::Error>
        ensures { result ≡ fault_of self.now }
    {
        self.last
    }
}

/// Makes one read, which is retried if it is interrupted.
fn read_some(file: &File, at: u64, into: &mut [u8]) -> io::Result<usize>
    ensures { IfOk result (λ n. n ≤ length into.old) }
{
    for _ in 0..MAX_INTERRUPTIONS {
        match file.read_at(into, at) {
            Err(error) if error.kind() == ErrorKind::Interrupted => {}
            answer => return answer,
        }
    }
    file.read_at(into, at)
}

/// Reads until `into` is full or the file ends.
fn read_all(file: &File, at: u64, into: &mut [u8]) -> io::Result<usize>
    ensures { IfOk result (λ n. n ≤ length into.old) }
{
    let mut done = 0;
    for _ in 0..u64::MAX {
        if done == into.len() {
            break;
        }
        let count = read_some(file, at.wrapping_add(done as u64), &mut into[done..])?;
        if count == 0 {
            break;
        }
        done += count;
    }
    Ok(done)
}

/// Makes one write, which is retried if it is interrupted.
fn write_some(file: &File, at: u64, bytes: &[u8]) -> io::Result<usize>
    ensures { IfOk result (λ n. n ≤ length bytes.now) }
{
    for _ in 0..MAX_INTERRUPTIONS {
        match file.write_at(bytes, at) {
            Err(error) if error.kind() == ErrorKind::Interrupted => {}
            answer => return answer,
        }
    }
    file.write_at(bytes, at)
}

/// Writes all bytes, if the file may become so long.
fn write_all(file: &File, limit: SizeLimit, at: u64, bytes: &[u8]) -> io::Result<()> {
    limit.check(at.saturating_add(bytes.len() as u64))?;
    let mut done = 0;
    for _ in 0..u64::MAX {
        if done == bytes.len() {
            break;
        }
        let count = write_some(file, at.wrapping_add(done as u64), &bytes[done..])?;
        if count == 0 {
            return Err(io::Error::from(ErrorKind::WriteZero));
        }
        done += count;
    }
    Ok(())
}

/// Counts a failure, and keeps its system error.
fn answer<T: Drop>(
    outcome: io::Result<T>,
    failures: &mut u64,
    last: &mut Option<io::Error>,
) -> Result<T, DiskFault>
    ensures failures { CountsEach result failures.old failures.new }
    ensures value { MatchResult outcome (λ x. result ≡ Ok x) (λ _. IsErr result) }
    ensures fault { MatchResult outcome (λ _. last.new ≡ last.old) (λ e. last.new ≡ Some e) }
{
    match outcome {
        Ok(value) => Ok(value),
        Err(error) => {
            *failures = raised(*failures);
            *last = Some(error);
            Err(DiskFault)
        }
    }
}

// promise: a_disk_does_what_its_trait_says, a_failed_disk_is_told
impl Disk for FileDisk {
    ghost use Rattle.disk_model.specs.FileDisk.{file_view};

    ghost view = { file_view };

    ghost honest_reads = { λ _ lie. absurd lie };

    ghost now_is_image = { λ _ lie. absurd lie };

    fn len(&mut self) -> Result<u64, DiskFault> {
        self.other_calls = self.other_calls.saturating_add(1);
        let metadata = answer(self.file.metadata(), &mut self.failures, &mut self.last)?;
        Ok(metadata.len())
    }

    fn read_at(&mut self, at: u64, into: &mut [u8]) -> Result<usize, DiskFault> {
        self.bytes_read = self.bytes_read.saturating_add(into.len() as u64);
        answer(
            read_all(&self.file, at, into),
            &mut self.failures,
            &mut self.last,
        )
    }

    fn write_at(&mut self, at: u64, bytes: &[u8]) -> Result<(), DiskFault> {
        self.other_calls = self.other_calls.saturating_add(1);
        answer(
            write_all(&self.file, self.limit, at, bytes),
            &mut self.failures,
            &mut self.last,
        )
    }

    fn cut(&mut self, len: u64) -> Result<(), DiskFault> {
        self.other_calls = self.other_calls.saturating_add(1);
        let metadata = answer(self.file.metadata(), &mut self.failures, &mut self.last)?;
        if len < metadata.len() {
            answer(self.file.set_len(len), &mut self.failures, &mut self.last)?;
        }
        Ok(())
    }

    fn sync(&mut self) -> Result<(), DiskFault> {
        self.other_calls = self.other_calls.saturating_add(1);
        answer(self.file.sync_all(), &mut self.failures, &mut self.last)
    }
}
