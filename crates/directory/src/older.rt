//! The block of a directory that may have been published before another one.

ghost use Rattle.std.specs.Prelude.{◌≡◌, ◌↔◌, length, IsTrue};
ghost use Rattle.directory.specs.Content.{HasEpoch, HasMark, HasOlderMark, MayPrecede};

use crate::decoding::has_sum;
use crate::layout::Layout;

/// Whether the block has the mark of this layout.
fn has_mark(layout: Layout, block: &[u8; 4096]) -> bool
    requires { length block.now ≡ 4096 }
    ensures { IsTrue result ↔ HasMark layout block.now }
{
    &block[8..16] == layout.mark().as_slice()
}

/// Whether the block has the mark of a layout that has no checksum.
fn has_older_mark(block: &[u8; 4096]) -> bool
    requires { length block.now ≡ 4096 }
    ensures { IsTrue result ↔ HasOlderMark block.now }
{
    has_mark(Layout::One, block) || has_mark(Layout::Two, block)
}

/// Whether the block has this epoch.
fn has_epoch(epoch: u64, block: &[u8; 4096]) -> bool
    requires { length block.now ≡ 4096 }
    ensures { IsTrue result ↔ HasEpoch epoch block.now }
{
    &block[..8] == epoch.to_be_bytes().as_slice()
}

/// Whether the block may be that of the directory which was published before one of this layout and
/// epoch. For a directory of layout 3 it has to have the epoch before, and a checksum, or the mark
/// of a layout without. For an older one it must not be of layout 3, since the layout never falls.
pub fn may_precede(layout: Layout, epoch: u64, block: &[u8; 4096]) -> bool
    // promise: damage_is_noticed_and_named
    ensures { IsTrue result ↔ MayPrecede layout epoch block.now }
{
    match layout {
        Layout::One | Layout::Two => !has_mark(Layout::Three, block),
        Layout::Three => {
            has_epoch(epoch.saturating_sub(1), block)
                && (has_older_mark(block) || has_sum(layout, block))
        }
    }
}
