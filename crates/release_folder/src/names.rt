//! Which files are release files, by their names.

ghost use Rattle.std.specs.Prelude.{◌≡◌, ◌↔◌, ◌⊎◌, IsTrue, IfOk, MatchOption, codes};
ghost use Rattle.std.specs.Prelude.{string_bytes, encode_utf8_all};
ghost use Rattle.std.specs.List.{AllByRecursion};
ghost use Rattle.memchr.specs.Find.{OccursAt};
ghost use Rattle.bstr.specs.Text.{Contains};
ghost use Rattle.import_check.specs.declared.scope.Scope.TheVariants as scopes;
ghost use Rattle.rf2_values.specs.declared.row.Kind.{Kind};
ghost use Rattle.release_folder.specs.Names.{IsColumnLetter, BeginsAsRefset, IsMemberName};
ghost use Rattle.release_folder.specs.Names.{Begins, IsNamed, IsTaken, IsSnapshotFile};
ghost use Rattle.shown_names.specs.Shown.{shown, IsPrintable};

use bstr::ByteSlice;
use import_check::Scope;
use rf2_values::Kind;
use shown_names::Shown;
use std::alloc::{AllocError, Global};

/// The beginning of the name of a file of associations.
const ASSOCIATION: &[u8] = b"der2_cRefset_Association";

/// The number of bytes before the letters of a reference set's columns.
const BEFORE_LETTERS: usize = 5;

/// Whether the byte is a letter for a column of a reference set.
pub(crate) fn is_column_letter(byte: u8) -> bool
    ensures { IsTrue result ↔ IsColumnLetter byte }
{
    byte == b'c' || byte == b'i' || byte == b's'
}

/// Whether the name begins with any number of column letters and then `Refset_`.
fn begins_as_refset(name: &[u8]) -> bool
    ensures { IsTrue result ↔ BeginsAsRefset name.now }
{
    for i in 0..name.len() {
        if !is_column_letter(name[i]) {
            let rest = &name[i..];
            return rest.starts_with_str(b"Refset_");
        }
    }
    false
}

/// Whether it is the name of a file of a reference set that isn't an association reference set.
fn is_member_name(name: &[u8]) -> bool
    ensures { IsTrue result ↔ IsMemberName name.now }
{
    if !has_prefix(name) {
        return false;
    }
    !name.starts_with_str(ASSOCIATION) && begins_as_refset(&name[BEFORE_LETTERS..])
}

/// Whether the name begins with what comes before the column letters of a reference set.
fn has_prefix(name: &[u8]) -> bool
    ensures { IsTrue result
        ↔ (OccursAt name.now (codes "der2_") 0 ⊎ OccursAt name.now (codes "sct2_") 0) }
{
    name.starts_with_str(b"der2_") || name.starts_with_str(b"sct2_")
}

/// Whether the name begins like that of a file of this kind, among the files that belong to every
/// scope.
fn begins_basic(kind: Kind, name: &[u8]) -> bool
    ensures { IsTrue result ↔ Begins scopes.Basic kind name.now }
{
    match kind {
        Kind::Concept => name.starts_with_str(b"sct2_Concept_"),
        Kind::Description => name.starts_with_str(b"sct2_Description_"),
        Kind::Relationship => name.starts_with_str(b"sct2_Relationship_"),
        Kind::Association => name.starts_with_str(ASSOCIATION),
        Kind::Concrete => name.starts_with_str(b"sct2_RelationshipConcreteValues_"),
        Kind::Member => false,
    }
}

/// Whether the name begins like that of a file of this kind.
fn begins(scope: Scope, kind: Kind, name: &[u8]) -> bool
    ensures { IsTrue result ↔ Begins scope kind name.now }
{
    match (scope, kind) {
        (Scope::Whole, Kind::Member) => is_member_name(name),
        (Scope::Whole, Kind::Description) => {
            begins_basic(kind, name) || name.starts_with_str(b"sct2_TextDefinition_")
        }
        _ => begins_basic(kind, name),
    }
}

/// Whether the name is that of a text file with rows of this kind.
fn is_named(scope: Scope, kind: Kind, name: &[u8]) -> bool
    ensures { IsTrue result ↔ IsNamed scope kind name.now }
{
    let begins = begins(scope, kind, name);
    let ends = name.ends_with_str(b".txt");
    begins && ends
}

/// The kind of the rows of a text file with this name, if it says one.
fn kind_named(name: &[u8], scope: Scope) -> Option<Kind>
    ensures { MatchOption result
        ((kind : Kind) → IsNamed scope kind name.now → ⊥)
        (λ kind. IsNamed scope kind name.now) }
{
    if is_named(scope, Kind::Concept, name) {
        Some(Kind::Concept)
    } else if is_named(scope, Kind::Description, name) {
        Some(Kind::Description)
    } else if is_named(scope, Kind::Relationship, name) {
        Some(Kind::Relationship)
    } else if is_named(scope, Kind::Association, name) {
        Some(Kind::Association)
    } else if is_named(scope, Kind::Concrete, name) {
        Some(Kind::Concrete)
    } else if is_named(scope, Kind::Member, name) {
        Some(Kind::Member)
    } else {
        None
    }
}

/// Whether the name says that the file belongs to a Delta or a Full release.
fn is_of_changes(name: &[u8]) -> bool
    ensures { IsTrue result ↔ (Contains name.now (codes "Delta") ⊎ Contains name.now (codes "Full")) }
{
    name.contains_str(b"Delta") || name.contains_str(b"Full")
}

/// The kind of the file with this name, if it is a release file in this scope: a text file of a
/// Delta or a Full release. Names are compared byte by byte.
pub fn kind_to_take(name: &[u8], scope: Scope) -> Option<Kind>
    // promise: files_are_taken_by_their_names
    ensures { MatchOption result
        ((kind : Kind) → IsTaken scope kind name.now → ⊥)
        (λ kind. IsTaken scope kind name.now) }
{
    if is_of_changes(name) {
        kind_named(name, scope)
    } else {
        None
    }
}

/// The kind of the file with this name, if it is a text file of a Snapshot in this scope.
pub fn snapshot_kind(name: &[u8], scope: Scope) -> Option<Kind>
    ensures { MatchOption result
        ((kind : Kind) → IsSnapshotFile scope kind name.now → ⊥)
        (λ kind. IsSnapshotFile scope kind name.now) }
{
    if name.contains_str(b"Snapshot") {
        kind_named(name, scope)
    } else {
        None
    }
}

/// A name or a path as it is shown to people: without control characters.
pub(crate) fn shown_name(alloc: Global, name: &[u8]) -> Result<String, AllocError>
    ensures shown { IfOk result (λ text. string_bytes text ≡ encode_utf8_all (shown name.now)) }
    // promise: what_is_passed_over_is_told
    ensures printable { IfOk result (λ text. AllByRecursion IsPrintable (string_bytes text)) }
{
    shown_names::no_control_characters(name);
    let name = Shown(name);
    format!(in alloc; "{name}")
}
