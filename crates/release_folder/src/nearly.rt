//! Names that people may mistake for those of release files.

use crate::names::{is_column_letter, kind_to_take};
use import_check::Scope;

/// The beginnings of the names of release files that belong to every scope.
const BEGINNINGS: [&str; 5] = [
    "sct2_Concept_",
    "sct2_Description_",
    "sct2_Relationship_",
    "der2_cRefset_Association",
    "sct2_RelationshipConcreteValues_",
];

/// Whether the name begins like this, ignoring case.
fn begins_with(name: &[u8], beginning: &[u8]) -> bool {
    match name.split_at_checked(beginning.len()) {
        Some((front, _)) => front.eq_ignore_ascii_case(beginning),
        None => false,
    }
}

/// Whether the name ends like this, ignoring case.
fn ends_with(name: &[u8], ending: &[u8]) -> bool {
    match name.split_at_checked(name.len().saturating_sub(ending.len())) {
        Some((_, back)) => back.eq_ignore_ascii_case(ending),
        None => false,
    }
}

/// Whether the last part of a path isn't the name of a release file in this scope, but would be if
/// case were ignored and an `x` at its beginning were removed, as the file names of beta releases
/// have it.
pub fn is_nearly_to_take(path: &[u8], scope: Scope) -> bool {
    let name = match path.iter().rposition(|byte| *byte == b'/') {
        Some(at) => path.get(at.saturating_add(1)..).unwrap_or(path),
        None => path,
    };
    kind_to_take(name, scope).is_none() && is_alike(name, scope)
}

/// Whether the name is similar to that of a release file.
fn is_alike(name: &[u8], scope: Scope) -> bool {
    let rest = match name {
        [b'x' | b'X', rest @ ..] => rest,
        _ => name,
    };
    let holds = rest
        .windows(5)
        .any(|part| part.eq_ignore_ascii_case(b"Delta"))
        || rest
            .windows(4)
            .any(|part| part.eq_ignore_ascii_case(b"Full"));
    begins_alike(rest, scope) && holds && ends_with(rest, b".txt")
}

/// Whether a name begins similarly to that of a release file.
fn begins_alike(name: &[u8], scope: Scope) -> bool {
    let begins = BEGINNINGS
        .iter()
        .any(|beginning| begins_with(name, beginning.as_bytes()));
    begins
        || match scope {
            Scope::Basic => false,
            Scope::Whole => begins_with(name, b"sct2_TextDefinition_") || is_like_member(name),
        }
}

/// Whether a name begins similarly to that of a file of a reference set.
fn is_like_member(name: &[u8]) -> bool {
    if !begins_with(name, b"der2_") && !begins_with(name, b"sct2_") {
        return false;
    }
    let letters = name.get(5..).unwrap_or_default();
    match letters
        .iter()
        .position(|byte| !is_column_letter(byte.to_ascii_lowercase()))
    {
        Some(at) => begins_with(letters.get(at..).unwrap_or_default(), b"Refset_"),
        None => false,
    }
}
