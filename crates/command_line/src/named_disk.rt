//! A disk that was opened by a name, and is no longer written once the name refers to something
//! else.

ghost use Rattle.std.specs.Prelude.{◌≡◌, ◌↔◌, ◌+◌, ◌≤◌, ℕ, length, min, IfOk, IfErr, OnOk, OnErr};
ghost use Rattle.std.specs.Prelude.{MatchResult};
ghost use Rattle.disk_model.specs.Disk.{Fails, followed_by, after_write, after_cut};
ghost use Rattle.disk_model.specs.View.{Calls, Stays, RisesBy};
ghost use Rattle.fault_counts.specs.Counting.{CountsEach};

use disk_model::{Disk, DiskFault, MAX_END};
use fault_counts::raised;
use std::io;

/// The name by which something was opened. It may later refer to something else.
pub trait Name {
    /// The name refers to what was opened by it, which has at least this length.
    ghost leads: { Self → ℕ → Type 0 };
    /// The name refers to something else, or to something shorter, or that can't be found out.
    ghost misses: { Self → ℕ → Type 0 };

    /// Checks that the name still refers to what was opened by it, and that this has at least this
    /// length; or says why not.
    fn look(&self, length: u64) -> io::Result<()>
        // promise: a_replaced_file_is_not_written
        ensures leads { IfOk result (λ _. leads self.now length) }
        // promise: a_replaced_file_is_not_written
        ensures misses { IfErr result (λ _. misses self.now length) };
}

/// A disk, and the name by which it was opened. Before each write it checks that the name still
/// refers to the disk, and that the disk is no shorter than earlier calls have left it. Otherwise
/// the write fails and changes nothing, so that nothing is published where nobody would find it.
/// All other calls go to the disk.
#[derive(Drop)]
pub struct NamedDisk<D, N> {
    disk: D,
    name: N,
    /// The length that the disk had at first, or that later calls gave it.
    length: u64,
    failures: u64,
    other_calls: u64,
    /// Why a write was refused, if one was.
    missed: Option<io::Error>,
}

impl<D, N> NamedDisk<D, N> {
    /// A disk of this length, with its name.
    pub fn new(disk: D, name: N, length: u64) -> NamedDisk<D, N>
        ensures disk { result.disk ≡ disk }
        ensures name { result.name ≡ name }
        // promise: a_replaced_file_is_not_written
        ensures length { result.length ≡ length }
    {
        NamedDisk {
            disk,
            name,
            length,
            failures: 0,
            other_calls: 0,
            missed: None,
        }
    }

    /// The disk itself.
    pub fn disk(&self) -> &D
        ensures { result.now ≡ self.now.disk }
    {
        &self.disk
    }

    /// The name by which it was opened.
    pub fn name(&self) -> &N
        ensures { result.now ≡ self.now.name }
    {
        &self.name
    }

    /// Why a write was refused, if one was.
    pub fn missed(&self) -> Option<io::Error> {
        self.missed
    }
}

/// Counts an error.
fn counted<T: Drop>(answer: Result<T, DiskFault>, failures: &mut u64) -> Result<T, DiskFault>
    ensures same { result ≡ answer }
    ensures failures { CountsEach result failures.old failures.new }
{
    if answer.is_err() {
        *failures = raised(*failures);
    }
    answer
}

// promise: a_replaced_file_is_not_written
impl<D: Disk, N: Name> Disk for NamedDisk<D, N> {
    ghost use Rattle.command_line.specs.NamedDisks.{WritesNamed, named_view, length_after};

    ghost view = { named_view D.view };

    ghost honest_reads = { λ d honest. D.honest_reads d.disk honest };

    ghost now_is_image = { λ d honest. D.now_is_image d.disk honest };

    fn len(&mut self) -> Result<u64, DiskFault> {
        self.other_calls = self.other_calls.saturating_add(1);
        counted(self.disk.len(), &mut self.failures)
    }

    fn read_at(&mut self, at: u64, into: &mut [u8]) -> Result<usize, DiskFault> {
        counted(self.disk.read_at(at, into), &mut self.failures)
    }

    fn write_at(&mut self, at: u64, bytes: &[u8]) -> Result<(), DiskFault>
        requires { at + length bytes.now ≤ MAX_END }
        ensures made { (D.view self.old.disk).is_honest
            → OnOk result ((D.view self.new.disk).moments
            ≡ followed_by (D.view self.old.disk).moments
            (after_write (D.view self.old.disk).moments.state at bytes.now)) }
        ensures failed { (D.view self.old.disk).is_honest
            → OnErr result (Fails (D.view self.old.disk).moments
            (after_write (D.view self.old.disk).moments.state at bytes.now)
            (D.view self.new.disk).moments) }
        ensures meters { Calls (CountsEach result) Stays (RisesBy 1)
            (named_view D.view self.old) (named_view D.view self.new) }
        // Nothing is written if the name refers to something else.
        // promise: a_replaced_file_is_not_written
        ensures named { WritesNamed N.leads N.misses D.view result self.old self.new }
        // promise: a_replaced_file_is_not_written
        ensures length { MatchResult result
            (λ _. self.new.length ≡ length_after self.old.length at bytes.now)
            (λ _. self.new.length ≡ self.old.length) }
    {
        self.other_calls = self.other_calls.saturating_add(1);
        if let Err(error) = self.name.look(self.length) {
            self.missed = Some(error);
            self.failures = raised(self.failures);
            return Err(DiskFault);
        }
        counted(self.disk.write_at(at, bytes), &mut self.failures)?;
        if !bytes.is_empty() {
            self.length = self.length.max(at + bytes.len() as u64);
        }
        Ok(())
    }

    fn cut(&mut self, len: u64) -> Result<(), DiskFault>
        ensures made { (D.view self.old.disk).is_honest
            → OnOk result ((D.view self.new.disk).moments
            ≡ followed_by (D.view self.old.disk).moments
            (after_cut (D.view self.old.disk).moments.state len)) }
        ensures failed { (D.view self.old.disk).is_honest
            → OnErr result (Fails (D.view self.old.disk).moments
            (after_cut (D.view self.old.disk).moments.state len)
            (D.view self.new.disk).moments) }
        ensures meters { Calls (CountsEach result) Stays (RisesBy 1)
            (named_view D.view self.old) (named_view D.view self.new) }
        // promise: a_replaced_file_is_not_written
        ensures length { self.new.length ≡ min self.old.length len }
    {
        self.other_calls = self.other_calls.saturating_add(1);
        self.length = self.length.min(len);
        counted(self.disk.cut(len), &mut self.failures)
    }

    fn sync(&mut self) -> Result<(), DiskFault> {
        self.other_calls = self.other_calls.saturating_add(1);
        counted(self.disk.sync(), &mut self.failures)
    }
}
