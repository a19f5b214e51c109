//! Whether a text has a word.

ghost use Rattle.std.specs.Prelude.{◌≡◌, ◌≢◌, ◌↔◌, ◌&&◌, [], IsTrue, chars, flat_map};
ghost use Rattle.std.specs.List.{list_any};
ghost use Rattle.ucd_case.specs.CaseFolding.{full_fold};
ghost use Rattle.word_model.specs.Words.{is_no_mark, is_of_word, unmarked, words};

use ucd_case::full_folding;
use ucd_normal::Form;
use unicode_normalization::char::{decomposition, is_combining_mark};

/// Whether the character is a letter or a digit, and no mark.
fn is_of_word(c: char) -> bool
    ensures { result ≡ (is_no_mark c && is_of_word c) }
{
    !is_combining_mark(c) && c.is_alphanumeric()
}

/// Whether one of these characters is a letter or a digit.
fn have_letter(parts: &[char]) -> bool
    ensures { result ≡ list_any (λ c. is_no_mark c && is_of_word c) parts.now }
{
    parts.iter().any(|part| is_of_word(*part))
}

/// Whether a folded character has a letter or a digit besides its marks.
fn has_letter(c: char) -> bool
    ensures { result ≡ list_any is_of_word (unmarked c) }
{
    let mut room = [c; 3];
    have_letter(decomposition(c, Form::Nfd, &mut room))
}

/// Whether one of these folded characters has a letter or a digit besides its marks.
fn have_folded_letter(folding: &[char]) -> bool
    ensures { result ≡ list_any (λ c. list_any is_of_word (unmarked c)) folding.now }
{
    folding.iter().any(|part| has_letter(*part))
}

/// Whether a character has a letter or a digit besides its marks, once its case is folded.
#[tactic(auto, using(crate::proofs::Letters::any_unmarked))]
fn has_folded_letter(c: char) -> bool
    ensures { result ≡ list_any is_of_word (flat_map unmarked (full_fold c)) }
{
    let folding = full_folding(c);
    if folding.is_empty() {
        have_folded_letter(&[c])
    } else {
        have_folded_letter(folding)
    }
}

/// Whether a text has a letter or a digit besides marks.
fn has_any_letter(text: &str) -> bool
    ensures { result ≡ list_any (λ c. list_any is_of_word (flat_map unmarked (full_fold c)))
        (chars text.now) }
{
    text.chars().any(|c| has_folded_letter(c))
}

/// Whether a text has a word, that is, a letter or a digit that isn't a mark.
pub fn has_word(text: &str) -> bool
    // promise: a_line_is_read_as_it_is_spelled
    ensures { IsTrue result ↔ words text.now ≢ [] }
{
    has_any_letter(text)
}
