ghost use Rattle.std.specs.Prelude.{◌≡◌, ◌+◌, ◌-◌, ◌≤◌, ◌++◌, ℕ, List, length, take, drop};
ghost use Rattle.std.specs.Prelude.{min, IfOk, OnOk, OnErr, MatchResult};
ghost use Rattle.disk_model.specs.Disk.{IsImage, Fails, followed_by, settled, after_write};
ghost use Rattle.disk_model.specs.Disk.{after_cut};
ghost use Rattle.disk_model.specs.View.{DiskView, OnlyReads, Calls, Stays, RisesBy};
ghost use Rattle.fault_counts.specs.Counting.{CountsEach};

use thiserror::Error;

/// A call on the disk failed. Each call says what it may have changed.
#[derive(Clone, Copy, Debug, PartialEq, Eq, Error)]
#[error("the disk failed")]
pub struct DiskFault;

/// No write reaches beyond this length, in bytes: 4,194,304 blocks of 4,096 bytes.
pub const MAX_END: u64 = 17_179_869_184;

/// A disk has bytes, at offsets from 0 up to its length. It is used by five calls only, and
/// everything above relies on what these promise, before and after a crash.
///
/// **A crash** is a loss of power, a crash of the system, or the end of the process, at any time.
/// What it leaves is one of the disk's *images*: the bytes that it then has. So code that has to
/// survive crashes has to be right for each image.
///
/// **A moment** is the time before the first call, or after a call that may change the disk:
/// `write_at`, `cut` and `sync`. `moments` has the state at the present moment and at all earlier
/// ones, the newest first. It is a ghost: clauses speak of it, and no code can look at it. A crash
/// within a call leaves an image of the moment before it or of the one after it. So what holds of
/// each image of each moment holds after a crash at any time.
///
/// **A state** says what a read returns now, and what a crash may leave: the *durable* bytes, which
/// are those at the last sync that returned `Ok`; the smallest and the greatest length since then;
/// and the ranges that were written since then, which are *unsynced*. The length of an image is
/// between the smallest and the greatest one, and at each offset below the smallest length and
/// outside all unsynced ranges it has the durable byte. At any other offset it may have any byte:
/// the old one, the new one, a part of it, or neither. After a sync that returned `Ok` there is
/// only one image: the bytes that a read returns.
///
/// **Failures.** Each call may fail, once or from some call on. A read or a sync that fails changes
/// nothing. A write or a cut that fails either changes nothing, or adds a moment: what a crash may
/// leave is then as before, or as if the call had succeeded, and a read returns one of these
/// images. `failures` rises with each call that fails; at 2^64 - 1 it stays.
///
/// **Reads and other calls.** On every disk and whatever the results, `bytes_read` rises with each
/// read by the number of requested bytes, and `other_calls` by one with each call of another kind.
/// Nothing else changes them.
///
/// **Honesty.** An honest disk behaves in this way, and no call ends that. The clauses about bytes
/// and moments assume it, since no program can see whether a disk lies. Of a disk that isn't
/// honest, only the clauses without that assumption are known: calls return, report no more bytes
/// than the buffer has, and their failures, the bytes requested by reads, and the other calls are
/// counted. What its reads return is the bytes of some file as long as nothing else is called, if
/// there is a file that it `reads_as`.
pub trait Disk {
    /// What it shows at one time. Each count has 64 bits, and stays at its greatest value.
    ghost view: { Self → DiskView };

    /// The length, in bytes.
    fn len(&mut self) -> Result<u64, DiskFault>
        // promise: a_disk_does_what_its_trait_says
        ensures value { (view self.old).is_honest
            → IfOk result (λ n. n ≡ length (view self.old).moments.state.now) }
        // promise: a_disk_does_what_its_trait_says
        ensures moments { (view self.old).is_honest
            → (view self.new).moments ≡ (view self.old).moments }
        // promise: a_disk_does_what_its_trait_says
        ensures meters { Calls (CountsEach result) Stays (RisesBy 1)
            (view self.old) (view self.new) };

    /// Fills the front of `into` with the bytes from offset `at` on, as far as there are any, and
    /// returns their number. There are none past the end. After an error `into` may have any
    /// contents.
    fn read_at(&mut self, at: u64, into: &mut [u8]) -> Result<usize, DiskFault>
        // promise: a_disk_does_what_its_trait_says
        ensures within { IfOk result (λ n. n ≤ length into.old) }
        // promise: a_disk_does_what_its_trait_says
        ensures count { (file : List ℕ) → (view self.old).reads_as file
            → IfOk result (λ n. n ≡ min (length into.old) (length file - at)) }
        // promise: a_disk_does_what_its_trait_says
        ensures bytes { (file : List ℕ) → (view self.old).reads_as file
            → IfOk result (λ n. into.new ≡ take n (drop at file) ++ drop n into.old) }
        // promise: a_disk_does_what_its_trait_says
        ensures again { (file : List ℕ) → (view self.old).reads_as file
            → (view self.new).reads_as file }
        // promise: a_disk_does_what_its_trait_says
        ensures meters { OnlyReads (CountsEach result) (RisesBy (length into.old))
            (view self.old) (view self.new) };

    /// Overwrites the bytes from offset `at` on, and extends the disk if they reach past its end,
    /// with zeros between the end and `at`. Until a sync, a crash may leave any bytes in this
    /// range. A write of no bytes changes no byte, and otherwise is a call like any other.
    fn write_at(&mut self, at: u64, bytes: &[u8]) -> Result<(), DiskFault>
        requires { at + length bytes.now ≤ MAX_END }
        // promise: a_disk_does_what_its_trait_says
        ensures made { (view self.old).is_honest → OnOk result ((view self.new).moments
            ≡ followed_by (view self.old).moments
            (after_write (view self.old).moments.state at bytes.now)) }
        // promise: a_disk_does_what_its_trait_says
        ensures failed { (view self.old).is_honest → OnErr result (Fails (view self.old).moments
            (after_write (view self.old).moments.state at bytes.now) (view self.new).moments) }
        // promise: a_disk_does_what_its_trait_says
        ensures meters { Calls (CountsEach result) Stays (RisesBy 1)
            (view self.old) (view self.new) };

    /// Cuts the disk to `len` bytes, if it is longer. Until a sync, a crash may leave what was cut
    /// off, or a part of it.
    fn cut(&mut self, len: u64) -> Result<(), DiskFault>
        // promise: a_disk_does_what_its_trait_says
        ensures made { (view self.old).is_honest → OnOk result ((view self.new).moments
            ≡ followed_by (view self.old).moments
            (after_cut (view self.old).moments.state len)) }
        // promise: a_disk_does_what_its_trait_says
        ensures failed { (view self.old).is_honest → OnErr result (Fails (view self.old).moments
            (after_cut (view self.old).moments.state len) (view self.new).moments) }
        // promise: a_disk_does_what_its_trait_says
        ensures meters { Calls (CountsEach result) Stays (RisesBy 1)
            (view self.old) (view self.new) };

    /// Waits until everything that was written is on the disk: afterwards a crash leaves what a
    /// read returns.
    fn sync(&mut self) -> Result<(), DiskFault>
        // promise: a_disk_does_what_its_trait_says
        ensures made { (view self.old).is_honest → OnOk result ((view self.new).moments
            ≡ followed_by (view self.old).moments
            (settled (view self.old).moments.state.now)) }
        // promise: a_disk_does_what_its_trait_says
        ensures failed { (view self.old).is_honest
            → OnErr result ((view self.new).moments ≡ (view self.old).moments) }
        // promise: a_disk_does_what_its_trait_says
        ensures meters { Calls (CountsEach result) Stays (RisesBy 1)
            (view self.old) (view self.new) };

    /// An honest disk's reads return the bytes that it has.
    ghost honest_reads: { (disk : Self) → (view disk).is_honest
        → (view disk).reads_as (view disk).moments.state.now };

    /// The bytes that a read returns are one of the images.
    ghost now_is_image: { (disk : Self) → (view disk).is_honest
        → IsImage (view disk).moments.state (view disk).moments.state.now };
}
