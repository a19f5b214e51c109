//! The texts in columns.

ghost use Rattle.std.specs.Prelude.{◌≡◌, nat_eq, ℕ, IfOk, MatchOption, IsTrue, ◌↔◌, ⊤, length, ◌≤◌};
ghost use Rattle.std.specs.Prelude.{List, ◌≢◌};
ghost use Rattle.std.specs.List.{All};
ghost use Rattle.std.specs.Str.{IsUtf8};
ghost use Rattle.std.specs.Cmp.{partial_equiv_from_equiv};
ghost use Rattle.std.specs.Cmp.Lexicographic.{nat_list_eq_equiv, pointwise};
ghost use Rattle.rf2_values.specs.Text.{IsText};

use bstr::ByteSlice;
use memchr::memchr2;
use std::alloc::{AllocError, Global};
use std::marker::Model;

/// A text in a line, which isn't empty and has no TAB and no LF.
#[derive(Debug, Drop)]
pub struct Text {
    bytes: Vec<u8>,
}

impl Model for Text {
    ghost Value = { List ℕ };

    ghost view = { λ t. t.bytes.items };

    ghost invariant = { λ t. IsText t.bytes.items };
}

/// Whether the bytes are UTF-8. Nearly all texts are ASCII, which is seen faster.
#[tactic(auto, using(crate::proofs::Texts::ascii_is_utf8))]
fn is_utf8(bytes: &[u8]) -> bool
    ensures { IsTrue result ↔ IsUtf8 bytes.now }
{
    bytes.is_ascii() || bytes.is_utf8()
}

/// Whether the bytes have neither a TAB nor an LF.
fn is_unbroken(bytes: &[u8]) -> bool
    ensures { IsTrue result ↔ (All (λ b. b ≢ 9) bytes.now × All (λ b. b ≢ 10) bytes.now) }
{
    memchr2(b'\t', b'\n', bytes).is_none()
}

/// Whether the bytes are a text: not empty, UTF-8, and without TAB and LF.
fn is_text(bytes: &[u8]) -> bool
    ensures { IsTrue result ↔ IsText bytes.now }
{
    !bytes.is_empty() && is_utf8(bytes) && is_unbroken(bytes)
}

impl Text {
    /// The text of these bytes, if they are valid.
    pub fn of(alloc: Global, bytes: &[u8]) -> Result<Option<Text>, AllocError>
        // promise: ids_dates_and_texts_are_checked
        ensures { IfOk result
            (λ found. MatchOption found (IsText bytes.now → ⊥) (λ t. (t ≡ bytes.now) × IsText t)) }
    {
        if !is_text(bytes) {
            return Ok(None);
        }
        Ok(Some(Text {
            bytes: Vec::from_slice(alloc, bytes)?,
        }))
    }

    /// Its bytes, which are UTF-8.
    pub fn as_bytes(&self) -> &[u8]
        ensures bytes { result.now ≡ self.now }
        ensures is_text { IsText self.now }
    {
        &self.bytes
    }

    /// A copy.
    pub fn try_clone(&self, alloc: Global) -> Result<Text, AllocError>
        ensures { IfOk result (λ t. t ≡ self.now) }
    {
        Ok(Text {
            bytes: Vec::from_slice(alloc, &self.bytes)?,
        })
    }
}

impl PartialEq for Text {
    ghost eq = { λ a b. pointwise nat_eq a b };

    ghost laws = { partial_equiv_from_equiv nat_list_eq_equiv };

    fn eq(&self, other: &Text) -> bool {
        self.bytes == other.bytes
    }
}

impl Eq for Text {
    ghost laws = { nat_list_eq_equiv };
}
