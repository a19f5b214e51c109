//! The default case folding of terms. Most of their characters are ASCII, which is folded to its
//! lower case; only what stands between the first and the last other character is looked up.

ghost use Rattle.std.specs.Prelude.{◌≡◌, ◌≤◌, ◌++◌, length, take, drop, OnOk, OnErr, IfOk};
ghost use Rattle.std.specs.Prelude.{string_bytes, IsAscii};
ghost use Rattle.std.specs.Str.{IsUtf8};
ghost use Rattle.history_model.specs.Queries.{folded};

use caseless::default_case_fold_str;
use std::alloc::{AllocError, Global};

/// How many bytes of ASCII a term begins with.
fn ascii_at_begin(term: &[u8]) -> usize
    ensures within { result ≤ length term.now }
    ensures ascii { IsAscii (take result term.now) }
{
    let mut end = 0;
    while end < term.len() && term[end].is_ascii() {
        end += 1;
    }
    end
}

/// Where the ASCII begins that a term ends with, but not before `from`.
fn ascii_at_end(term: &[u8], from: usize) -> usize
    requires { from ≤ length term.now }
    ensures after { from ≤ result }
    ensures within { result ≤ length term.now }
    ensures ascii { IsAscii (drop result term.now) }
{
    let mut start = term.len();
    while start > from && term[start - 1].is_ascii() {
        start -= 1;
    }
    start
}

/// The folding of a text by the tables of Unicode.
#[tactic(auto, unfolding(history_model::specs::Queries::folded))]
fn looked_up(alloc: Global, text: &[u8]) -> Result<String, AllocError>
    requires { IsUtf8 text.now }
    ensures { IfOk result (λ t. string_bytes t ≡ folded text.now) }
{
    match str::from_utf8(text) {
        Ok(text) => default_case_fold_str(alloc, text),
        Err(_) => unreachable!(),
    }
}

/// Adds the default case folding of a term in ASCII, which is its lower case, at the end of a text.
/// An `Err` changes nothing.
pub(crate) fn extend_by_lower_case(text: &mut Vec<u8>, term: &[u8]) -> Result<(), AllocError>
    requires { IsAscii term.now }
    ensures ok { OnOk result (text.new.items ≡ text.old.items ++ folded term.now) }
    ensures err { OnErr result (text.new.items ≡ text.old.items) }
{
    let start = text.len();
    text.extend_from_slice(term)?;
    text[start..].make_ascii_lowercase();
    Ok(())
}

/// A term in the default case folding.
pub(crate) fn folded(alloc: Global, term: &[u8]) -> Result<Vec<u8>, AllocError>
    requires { IsUtf8 term.now }
    ensures { IfOk result (λ t. t.items ≡ folded term.now) }
{
    let begin = ascii_at_begin(term);
    let end = ascii_at_end(term, begin);
    let between = looked_up(alloc, &term[begin..end])?;
    let mut text = Vec::with_capacity(alloc, term.len())?;
    extend_by_lower_case(&mut text, &term[..begin])?;
    text.extend_from_slice(between.as_bytes())?;
    extend_by_lower_case(&mut text, &term[end..])?;
    Ok(text)
}
