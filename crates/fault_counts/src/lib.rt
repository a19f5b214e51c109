//! Counts of faults: how they rise, defined once for all crates that count faults; and why a row
//! couldn't be read.
#![tactic(auto)]

ghost use Rattle.std.specs.Prelude.{◌≡◌, ◌+◌, ◌-◌, ◌^◌, min};
ghost use Rattle.fault_counts.specs.Counting.{HasRisen};

mod fault;

pub use fault::ReadFault;

/// The count after one more fault. It stays at its greatest value.
pub fn raised(count: u64) -> u64
    ensures one_more { result ≡ min (count + 1) (2 ^ 64 - 1) }
    ensures risen { HasRisen count result }
{
    count.saturating_add(1)
}
