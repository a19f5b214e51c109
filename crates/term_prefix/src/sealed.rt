//! Terms in the order of their foldings.

ghost use Rattle.std.specs.Prelude.{◌≡◌, ◌↔◌, ℕ, List, map, IsTrue};
ghost use Rattle.std.specs.List.{filter};
ghost use Rattle.std.specs.Ordering.{nat_cmp, is_lt};
ghost use Rattle.std.specs.Cmp.Lexicographic.{slice_cmp};
ghost use Rattle.history_model.specs.InOrder.{Has};
ghost use Rattle.term_prefix.specs.Terms.{TextsRise};
ghost use Rattle.term_prefix.specs.Laid.{term_at, terms_at};
ghost use Rattle.term_prefix.specs.Private.{begins};

use crate::text::{Term, piece};
use std::cmp::Ordering;
use std::marker::Model;

/// The terms of a list of rows, ascending by their foldings.
#[derive(Drop)]
pub struct Sealed {
    pub(crate) text: Vec<u8>,
    pub(crate) terms: Vec<Term>,
}

impl Model for Sealed {
    ghost use Rattle.std.specs.Prelude.{List};
    ghost use Rattle.term_prefix.specs.Terms.{TermAt, TextsRise};
    ghost use Rattle.term_prefix.specs.Laid.{terms_at, HaveHeads};

    ghost Value = { List TermAt };

    ghost view = { λ a. terms_at a.text.items a.terms.items };

    ghost invariant = { λ a. TextsRise (terms_at a.text.items a.terms.items)
        × HaveHeads a.text.items a.terms.items };
}

/// Whether the folding is sorted before the prefix.
fn is_under(text: &[u8], term: &Term, prefix: &[u8]) -> bool
    ensures { result ≡ is_lt (slice_cmp nat_cmp (term_at text.now term.now).folded prefix.now) }
{
    match piece(text, term.start, term.len as usize).cmp(prefix) {
        Ordering::Less => true,
        _ => false,
    }
}

/// Whether the folding begins with the prefix.
fn begins(text: &[u8], term: &Term, prefix: &[u8]) -> bool
    ensures { result ≡ begins prefix.now (term_at text.now term.now) }
{
    piece(text, term.start, term.len as usize).starts_with(prefix)
}

/// The terms that begin with the prefix, found by two binary searches.
fn candidates<'a>(text: &[u8], terms: &'a [Term], prefix: &[u8]) -> &'a [Term]
    ensures found { TextsRise (terms_at text.now terms.now) → (t : _)
        → Has result.now t ↔ (Has terms.now t × IsTrue (begins prefix.now (term_at text.now t))) }
{
    let first = terms.partition_point(|term| is_under(text, term, prefix));
    let rest = &terms[first..];
    let count = rest.partition_point(|term| begins(text, term, prefix));
    &rest[..count]
}

impl Sealed {
    /// The terms that begin with the prefix.
    pub(crate) fn candidates(&self, prefix: &[u8]) -> &[Term]
        ensures { (i : ℕ) → Has (map (λ t. t.row) result.now) i
            ↔ Has (map (λ t. t.row) (filter (begins prefix.now) self.now)) i }
    {
        candidates(self.text.as_slice(), self.terms.as_slice(), prefix)
    }
}
