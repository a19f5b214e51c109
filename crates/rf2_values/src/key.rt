//! Keys, which identify rows.

ghost use Rattle.std.specs.Prelude.{◌≡◌, refl};
ghost use Rattle.std.proofs.Common.{rules};
ghost use Rattle.std.specs.Cmp.{partial_order_from_agreeing_total};
ghost use Rattle.std.specs.Cmp.Rules.{comparing};
ghost use Rattle.std.specs.Ordering.{as_partial_cmp};
ghost use Rattle.rf2_values.specs.Key.{key_cmp};
ghost use Rattle.rf2_values.specs.Private.{keys_tie, keys_total};

use crate::row::Kind;
use crate::time::EffectiveTime;
use std::cmp::Ordering;

/// What identifies a row among all rows: its kind, its id and its effective time, compared in this
/// order. The fields are declared in the order that takes the least memory.
#[derive(Clone, Copy, Debug, PartialEq, Eq)]
pub struct Key {
    /// An SCTID as a number, or a member id as one of 128 bits.
    pub id: u128,
    /// The day from which the row holds.
    pub time: EffectiveTime,
    /// The kind of the component.
    pub kind: Kind,
}

const _: () = prove!(size_of::<Key>() == 32);

impl Key {
    /// The order of the two keys, like `<` and `cmp`.
    pub fn compare(&self, other: &Key) -> Ordering
        // promise: ids_dates_and_texts_are_checked
        ensures { result ≡ key_cmp self.now other.now }
    {
        let ids = self.id.cmp(&other.id).then(self.time.cmp(&other.time));
        self.kind.cmp(&other.kind).then(ids)
    }
}

impl Ord for Key {
    ghost cmp = { key_cmp };

    ghost total = { keys_total };

    ghost matches_partial_cmp = { Prim.search (comparing, rules) };

    ghost matches_eq = { keys_tie };

    fn cmp(&self, other: &Key) -> Ordering {
        self.compare(other)
    }
}

impl PartialOrd for Key {
    ghost partial_cmp = { as_partial_cmp key_cmp };

    ghost laws = { partial_order_from_agreeing_total key_cmp keys_total (λ _ _. refl)
        keys_tie };

    fn partial_cmp(&self, other: &Key) -> Option<Ordering> {
        Some(self.compare(other))
    }
}
