//! Records that begin with a checksum.

ghost use Rattle.std.specs.Prelude.{◌≡◌, ◌++◌, List, ℕ, Some};
ghost use Rattle.std.specs.Option.{option_map};
ghost use Rattle.rf2_values.specs.declared.row.Kind.TheVariants as kinds;
ghost use Rattle.history_model.specs.declared.stamped.StampedRow.{StampedRow};
ghost use Rattle.checksum.specs.declared.form.Form.TheVariants as forms;
ghost use Rattle.segment.specs.Records.{spelled, fields_of, IsStamped};
ghost use Rattle.segment.specs.Private.Reading.{fields_at, body_forms};
ghost use Rattle.segment.specs.Private.Finding.{Splits};

use crate::fields::{read_text, read_u32, read_u64};
use crate::raw::read_common;
use crate::row::kind_with_code;
use checksum::crc32c;
use rf2_values::Kind;

fn behind_concept(bytes: &[u8]) -> Option<&[u8]>
    ensures { option_map (λ p. p.1) (fields_at (body_forms kinds.Concept) bytes.now)
        ≡ option_map (λ rest. rest.now) result }
{
    let (_, rest) = read_u64(bytes)?;
    Some(rest)
}

fn behind_description(bytes: &[u8]) -> Option<&[u8]>
    ensures { option_map (λ p. p.1) (fields_at (body_forms kinds.Description) bytes.now)
        ≡ option_map (λ rest. rest.now) result }
{
    let (_, rest) = read_u64(bytes)?;
    let (_, rest) = read_u64(rest)?;
    let (_, rest) = read_u64(rest)?;
    let (_, rest) = read_text(rest)?;
    let (_, rest) = read_text(rest)?;
    Some(rest)
}

fn behind_relationship(bytes: &[u8]) -> Option<&[u8]>
    ensures { option_map (λ p. p.1) (fields_at (body_forms kinds.Relationship) bytes.now)
        ≡ option_map (λ rest. rest.now) result }
{
    let (_, rest) = read_u64(bytes)?;
    let (_, rest) = read_u64(rest)?;
    let (_, rest) = read_u32(rest)?;
    let (_, rest) = read_u64(rest)?;
    let (_, rest) = read_u64(rest)?;
    let (_, rest) = read_u64(rest)?;
    Some(rest)
}

fn behind_association(bytes: &[u8]) -> Option<&[u8]>
    ensures { option_map (λ p. p.1) (fields_at (body_forms kinds.Association) bytes.now)
        ≡ option_map (λ rest. rest.now) result }
{
    let (_, rest) = read_u64(bytes)?;
    let (_, rest) = read_u64(rest)?;
    let (_, rest) = read_u64(rest)?;
    Some(rest)
}

fn behind_concrete(bytes: &[u8]) -> Option<&[u8]>
    ensures { option_map (λ p. p.1) (fields_at (body_forms kinds.Concrete) bytes.now)
        ≡ option_map (λ rest. rest.now) result }
{
    let (_, rest) = read_u64(bytes)?;
    let (_, rest) = read_u32(rest)?;
    let (_, rest) = read_u64(rest)?;
    let (_, rest) = read_u64(rest)?;
    let (_, rest) = read_u64(rest)?;
    let (_, rest) = read_text(rest)?;
    Some(rest)
}

fn behind_member(bytes: &[u8]) -> Option<&[u8]>
    ensures { option_map (λ p. p.1) (fields_at (body_forms kinds.Member) bytes.now)
        ≡ option_map (λ rest. rest.now) result }
{
    let (_, rest) = read_u64(bytes)?;
    let (_, rest) = read_u64(rest)?;
    let (_, rest) = read_text(rest)?;
    Some(rest)
}

/// The bytes after the fields of a body of this kind.
fn behind_body(kind: Kind, bytes: &[u8]) -> Option<&[u8]>
    ensures { option_map (λ p. p.1) (fields_at (body_forms kind) bytes.now)
        ≡ option_map (λ rest. rest.now) result }
{
    match kind {
        Kind::Concept => behind_concept(bytes),
        Kind::Description => behind_description(bytes),
        Kind::Relationship => behind_relationship(bytes),
        Kind::Association => behind_association(bytes),
        Kind::Concrete => behind_concrete(bytes),
        Kind::Member => behind_member(bytes),
    }
}

/// The bytes after the fields of a record.
fn behind_fields(bytes: &[u8]) -> Option<&[u8]>
    ensures { (s : StampedRow) (rest : List ℕ) → IsStamped s
        → bytes.now ≡ spelled (fields_of s) ++ rest
        → option_map (λ behind. behind.now) result ≡ Some rest }
{
    let Some((common, rest)) = read_common(bytes) else {
        return None;
    };
    let Some(kind) = kind_with_code(common.kind) else {
        return None;
    };
    behind_body(kind, rest)
}

/// The fields of the first record, if the checksum before them is right, and the bytes after the
/// record.
pub(crate) fn read_checked_bytes(bytes: &[u8]) -> Option<(&[u8], &[u8])>
    ensures { Splits forms.Checked bytes.now (option_map (λ p. (p.0.now, p.1.now)) result) }
{
    let Some((head, behind)) = read_u32(bytes) else {
        return None;
    };
    let Some(rest) = behind_fields(behind) else {
        return None;
    };
    let Some(len) = behind.len().checked_sub(rest.len()) else {
        return None;
    };
    let (fields, rest) = behind.split_at(len);
    if crc32c(fields) != head {
        return None;
    }
    Some((fields, rest))
}
