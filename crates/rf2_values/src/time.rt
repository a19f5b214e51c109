//! The day from which a row is valid.

ghost use Rattle.std.specs.Prelude.{◌≡◌, ℕ, Some, IfSome, SomeIff, decimal};
ghost use Rattle.rf2_values.specs.Time.{IsTime};

use crate::number;
use std::marker::Model;

/// The column `effectiveTime`: a day, as the number of its eight digits (year, month, day). Every
/// month may have 31 days.
#[derive(Clone, Copy, Debug, PartialEq, Eq, PartialOrd, Ord)]
pub struct EffectiveTime {
    value: u32,
}

impl Model for EffectiveTime {
    ghost Value = { ℕ };

    ghost view = { λ t. t.value };

    ghost invariant = { λ t. IsTime t.value };

    ghost inverse = { λ n. record { value = n } };
}

impl EffectiveTime {
    /// The day with this number.
    pub fn of(value: u32) -> Option<EffectiveTime>
        // promise: ids_dates_and_texts_are_checked
        ensures { SomeIff result (IsTime value) value }
    {
        let (year, month, day) = (value / 10_000, value / 100 % 100, value % 100);
        if (1000..=9999).contains(&year) && (1..=12).contains(&month) && (1..=31).contains(&day) {
            Some(EffectiveTime { value })
        } else {
            None
        }
    }

    /// The day that the text spells, with eight digits.
    pub fn parse(text: &[u8]) -> Option<EffectiveTime>
        // promise: ids_dates_and_texts_are_checked
        ensures found { IfSome result (λ t. IsTime t × (text.now ≡ decimal t)) }
        // promise: ids_dates_and_texts_are_checked
        ensures only { (t : ℕ) → IsTime t → text.now ≡ decimal t → result ≡ Some t }
    {
        EffectiveTime::of(u32::try_from(number::parse(text)?).ok()?)
    }

    /// Year, month and day as one number of eight digits, such as 20200131.
    pub fn value(self) -> u32
        ensures value { result ≡ self }
        ensures is_time { IsTime result }
    {
        self.value
    }
}
