//! The receipt of an import: how many rows it was the first to bring, counted over the places in
//! memory.

ghost use Rattle.std.specs.Prelude.{◌^◌, ◌<◌, length};
ghost use Rattle.history_model.specs.InOrder.{joined};
ghost use Rattle.history_store.specs.Private.{IsReceiptOf};

use crate::latest::later;
use as_of_index::{Index, RowPlace};
use history_model::ImportReceipt;

/// The receipt of an import, counted over these places.
fn receipt_in(places: &[RowPlace], number: u32) -> ImportReceipt
    ensures { IsReceiptOf number places.now result }
{
    let mut new = 0u64;
    let mut latest = None;
    for place in places {
        if place.import == number {
            new += 1;
            latest = later(latest, Some(place.key.time));
        }
    }
    ImportReceipt { new, latest }
}

/// The receipt of an import, counted over the places of all lists.
pub(crate) fn receipt_of(index: &Index, number: u32) -> ImportReceipt
    requires { length (joined index.now) < 2 ^ 64 }
    ensures { IsReceiptOf number (joined index.now) result }
{
    let mut new = 0u64;
    let mut latest = None;
    for i in 0..index.lists() {
        let brought = receipt_in(index.list(i), number);
        new += brought.new;
        latest = later(latest, brought.latest);
    }
    ImportReceipt { new, latest }
}
