//! Descriptions by the beginning of their terms.

ghost use Rattle.std.specs.Prelude.{◌≡◌, ◌&&◌, map, IfOk, string_bytes};
ghost use Rattle.std.specs.List.{filter};
ghost use Rattle.std.specs.Str.{IsUtf8};
ghost use Rattle.history_model.specs.Queries.{folded};
ghost use Rattle.history_model.specs.Queries.{is_term, terms};
ghost use Rattle.history_model.specs.Queries.{is_term_above, search_terms};

use crate::snapshots::{is_above, snapshot};
use caseless::default_case_fold_str;
use rf2_values::{Body, EffectiveTime, Row};
use std::alloc::{AllocError, Global};

/// A text in the default case folding.
#[tactic(auto, unfolding(history_model::specs::Queries::folded))]
fn fold(alloc: Global, text: &[u8]) -> Result<String, AllocError>
    requires { IsUtf8 text.now }
    ensures { IfOk result (λ folding. string_bytes folding ≡ folded text.now) }
{
    match str::from_utf8(text) {
        Ok(text) => default_case_fold_str(alloc, text),
        Err(_) => unreachable!(),
    }
}

/// Whether the row is an active description whose folded term begins with the folded prefix.
fn is_term(alloc: Global, row: &Row, prefix: &str) -> Result<bool, AllocError>
    ensures { IfOk result (λ answer. answer ≡ is_term prefix.now row.now) }
{
    match &row.body {
        Body::Description(description) if row.active => {
            let term = fold(alloc, description.term.as_bytes())?;
            let beginning = fold(alloc, prefix.as_bytes())?;
            Ok(term.as_bytes().starts_with(beginning.as_bytes()))
        }
        _ => Ok(false),
    }
}

/// Whether the row is such a description, with an id greater than `after`, if that is given.
fn is_term_above(
    alloc: Global,
    row: &Row,
    prefix: &str,
    after: Option<u128>,
) -> Result<bool, AllocError>
    ensures { IfOk result (λ answer. answer ≡ is_term_above prefix.now after row.now) }
{
    let is_term = is_term(alloc, row, prefix)?;
    Ok(is_term && is_above(after, row.id))
}

/// The rows that are such descriptions.
fn with_term<'a>(
    alloc: Global,
    rows: &[&'a Row],
    prefix: &str,
    after: Option<u128>,
) -> Result<Vec<&'a Row>, AllocError>
    ensures { IfOk result (λ found. map (λ row. row.now) found.items
        ≡ filter (is_term_above prefix.now after) (map (λ row. row.now) rows.now)) }
{
    let mut found = Vec::new(alloc);
    for row in rows {
        if is_term_above(alloc, *row, prefix, after)? {
            found.push(*row)?;
        }
    }
    Ok(found)
}

/// The first `limit` active descriptions at the date whose folded term begins with the folded
/// prefix, with ids greater than `after`, if that is given.
#[tactic(auto, using(crate::proofs::Listed::map_take), unfolding(history_model::specs::Queries::terms_above, history_model::specs::Queries::search_terms))]
pub fn search_terms<'a>(
    alloc: Global,
    rows: &'a [Row],
    prefix: &str,
    date: EffectiveTime,
    after: Option<u128>,
    limit: u32,
) -> Result<Vec<&'a Row>, AllocError>
    // promise: an_answer_is_the_defined_one
    ensures { IfOk result (λ found. map (λ row. row.now) found.items
        ≡ search_terms prefix.now date after limit rows.now) }
{
    let all = snapshot(alloc, rows, date)?;
    let mut found = with_term(alloc, &all, prefix, after)?;
    found.truncate(limit as usize);
    Ok(found)
}

/// The first `limit` active descriptions at the date whose folded term begins with the folded
/// prefix.
#[tactic(auto, using(crate::proofs::Listed::any_terms))]
pub fn terms<'a>(
    alloc: Global,
    rows: &'a [Row],
    prefix: &str,
    date: EffectiveTime,
    limit: u32,
) -> Result<Vec<&'a Row>, AllocError>
    // promise: an_answer_is_the_defined_one
    ensures { IfOk result (λ found. map (λ row. row.now) found.items
        ≡ terms prefix.now date limit rows.now) }
{
    let found = search_terms(alloc, rows, prefix, date, None, limit)?;
    Ok(found)
}
