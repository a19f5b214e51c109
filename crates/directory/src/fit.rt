ghost use Rattle.std.specs.Prelude.{◌≡◌, ◌↔◌, ◌+◌, ◌<◌, ◌^◌, ℕ, IsErr, IfOk, MatchResult, Some};
ghost use Rattle.std.specs.Prelude.{None};
ghost use Rattle.std.specs.List.{find};
ghost use Rattle.directory.specs.Places.{taken};
ghost use Rattle.directory.specs.Fit.{fit, meets, IsFit, IsFree};

use crate::entry::{DATA_START, Entry};
use blocks::{BLOCK_LIMIT, Extent};
use thiserror::Error;

/// No run of free blocks is long enough.
#[derive(Clone, Copy, Debug, PartialEq, Eq, Error)]
#[error("no run of free blocks is long enough")]
pub struct Full;

/// Whether one of the `blocks` blocks from `first` on belongs to the extent.
fn is_met(first: u64, blocks: u64, extent: Extent) -> bool
    requires { first + blocks < 2 ^ 64 }
    ensures { result ≡ meets first blocks extent }
{
    first.max(u64::from(extent.first)) < (first + blocks).min(extent.end())
}

/// An extent in use that has one of the `blocks` blocks from `first` on.
pub(crate) fn extent_met(
    first: u64,
    blocks: u64,
    live: &[Entry],
    reserved: Option<Extent>,
) -> Option<Extent>
    requires { first + blocks < 2 ^ 64 }
    ensures { result ≡ find (meets first blocks) (taken live.now reserved) }
{
    for entry in live {
        let extent = entry.extent();
        if is_met(first, blocks, extent) {
            return Some(extent);
        }
    }
    match reserved {
        Some(extent) if is_met(first, blocks, extent) => Some(extent),
        _ => None,
    }
}

/// The first block of the first extent of `blocks` blocks that shares none with a listed segment or
/// the reserved extent.
pub fn first_fit(blocks: u32, live: &[Entry], reserved: Option<Extent>) -> Result<u32, Full>
    // promise: free_blocks_are_found_again
    ensures fit { MatchResult result
        (λ first. fit blocks live.now reserved ≡ Some first)
        (λ _. fit blocks live.now reserved ≡ None) }
    // promise: free_blocks_are_found_again
    ensures least { IfOk result (IsFit blocks (taken live.now reserved)) }
    // promise: free_blocks_are_found_again
    ensures full { IsErr result
        ↔ ((first : ℕ) → IsFree blocks (taken live.now reserved) first → ⊥) }
{
    let count = u64::from(blocks);
    let mut first = u64::from(DATA_START);
    // Each round moves past the end of an extent, which isn't met again.
    'jumps: while let Some(extent) = extent_met(first, count, live, reserved) {
        first = extent.end();
    }
    if first + count <= u64::from(BLOCK_LIMIT) {
        Ok(first as u32)
    } else {
        Err(Full)
    }
}
