//! Columns of a line whose meaning isn't known.

ghost use Rattle.std.specs.Prelude.{◌≡◌, nat_eq, ℕ, IfOk, MatchOption, IsTrue, ◌↔◌, ◌⊎◌, List, [], ◌∷◌};
ghost use Rattle.std.specs.Prelude.{◌==◌, length};
ghost use Rattle.std.specs.List.{count_by};
ghost use Rattle.std.specs.Cmp.{partial_equiv_from_equiv};
ghost use Rattle.std.specs.Cmp.Lexicographic.{nat_list_eq_equiv, pointwise};
ghost use Rattle.rf2_values.specs.Text.{IsFurther, further_columns};

use bstr::ByteSlice;
use std::alloc::{AllocError, Global};
use std::marker::Model;

/// The part of a line after its columns with a known meaning, unchanged: nothing, or further
/// columns with a TAB before each.
#[derive(Debug, Drop)]
pub struct Further {
    bytes: Vec<u8>,
}

impl Model for Further {
    ghost Value = { List ℕ };

    ghost view = { λ f. f.bytes.items };

    ghost invariant = { λ f. IsFurther f.bytes.items };
}

/// Whether the bytes, if there are any, begin with a TAB.
fn begins_with_tab(bytes: &[u8]) -> bool
    ensures { IsTrue result
        ↔ ((bytes.now ≡ []) ⊎ ((rest : List ℕ) × (bytes.now ≡ 9 ∷ rest))) }
{
    match bytes {
        [] => true,
        [first, ..] => *first == b'\t',
    }
}

/// Whether the bytes are further columns, with a TAB before each.
fn is_further(bytes: &[u8]) -> bool
    ensures { IsTrue result ↔ IsFurther bytes.now }
{
    begins_with_tab(bytes) && bytes.is_utf8() && bytes.iter().all(|b| *b != b'\n')
}

/// How many TABs there are.
fn count_tabs(bytes: &[u8]) -> usize
    ensures { result ≡ count_by (λ b. b == 9) bytes.now }
{
    bytes.iter().filter(|b| **b == b'\t').count()
}

impl Further {
    /// The further columns that these bytes are, if they are valid.
    pub fn of(alloc: Global, bytes: &[u8]) -> Result<Option<Further>, AllocError>
        // promise: ids_dates_and_texts_are_checked
        ensures { IfOk result
            (λ found. MatchOption found (IsFurther bytes.now → ⊥)
            (λ f. (f ≡ bytes.now) × IsFurther f)) }
    {
        if !is_further(bytes) {
            return Ok(None);
        }
        Ok(Some(Further {
            bytes: Vec::from_slice(alloc, bytes)?,
        }))
    }

    /// How many further columns these bytes have, if they are valid.
    pub fn count(bytes: &[u8]) -> Option<usize>
        // promise: ids_dates_and_texts_are_checked
        ensures { MatchOption result (IsFurther bytes.now → ⊥)
            (λ n. IsFurther bytes.now × (n ≡ length (further_columns bytes.now))) }
    {
        if is_further(bytes) {
            Some(count_tabs(bytes))
        } else {
            None
        }
    }

    /// Its bytes, which are UTF-8.
    pub fn as_bytes(&self) -> &[u8]
        ensures bytes { result.now ≡ self.now }
        ensures is_further { IsFurther self.now }
    {
        &self.bytes
    }

    /// A copy.
    pub fn try_clone(&self, alloc: Global) -> Result<Further, AllocError>
        ensures { IfOk result (λ f. f ≡ self.now) }
    {
        Ok(Further {
            bytes: Vec::from_slice(alloc, &self.bytes)?,
        })
    }
}

impl PartialEq for Further {
    ghost eq = { λ a b. pointwise nat_eq a b };

    ghost laws = { partial_equiv_from_equiv nat_list_eq_equiv };

    fn eq(&self, other: &Further) -> bool {
        self.bytes == other.bytes
    }
}

impl Eq for Further {
    ghost laws = { nat_list_eq_equiv };
}
