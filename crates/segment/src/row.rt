//! Makes rows from the fields of their records.

ghost use Rattle.std.specs.Prelude.{◌≡◌, ⊤, ◌≤◌, IfSome, IfNone};
ghost use Rattle.rf2_values.specs.declared.row.Kind.{Kind};
ghost use Rattle.rf2_values.specs.Time.{IsTime};
ghost use Rattle.rf2_values.specs.Row.{IsVersion, IsBody, version};
ghost use Rattle.segment.specs.Records.{kind_code, active_code, IsStamped};
ghost use Rattle.segment.specs.Private.Finding.{Finds, IsBodyIn, IsRowIn};

use crate::columns::{
    association_of, concept_of, concrete_of, description_of, member_of, relationship_of, sctid,
};
use crate::fault::SegmentFault;
use crate::raw::{
    read_association, read_common, read_concept, read_concrete, read_description, read_member,
    read_relationship,
};
use history_model::StampedRow;
use rf2_values::{Body, EffectiveTime, Kind, Row, Sctid};
use std::alloc::Global;

pub(crate) fn kind_with_code(code: u8) -> Option<Kind>
    ensures known { IfSome result (λ kind. kind_code kind ≡ code) }
    ensures unknown { IfNone result ((kind : Kind) → kind_code kind ≡ code → ⊥) }
{
    match code {
        1 => Some(Kind::Concept),
        2 => Some(Kind::Description),
        3 => Some(Kind::Relationship),
        4 => Some(Kind::Association),
        5 => Some(Kind::Concrete),
        6 => Some(Kind::Member),
        _ => None,
    }
}

fn kind_of_code(code: u8) -> Result<Kind, SegmentFault>
    ensures { Finds (λ _. ⊤) (λ kind. kind_code kind ≡ code) result }
{
    match kind_with_code(code) {
        Some(kind) => Ok(kind),
        None => Err(SegmentFault::BadSegment),
    }
}

fn active_of_code(code: u8) -> Result<bool, SegmentFault>
    ensures { Finds (λ _. ⊤) (λ active. active_code active ≡ code) result }
{
    match code {
        0 => Ok(false),
        1 => Ok(true),
        _ => Err(SegmentFault::BadSegment),
    }
}

fn effective_time(value: u32) -> Result<EffectiveTime, SegmentFault>
    ensures { Finds IsTime (λ time. time ≡ value) result }
{
    EffectiveTime::of(value).ok_or(SegmentFault::BadSegment)
}

/// Checks an import number: they are counted from 1.
fn import_number(value: u32) -> Result<u32, SegmentFault>
    ensures { Finds (λ n. 1 ≤ n) (λ n. (1 ≤ n) × (n ≡ value)) result }
{
    if value == 0 {
        return Err(SegmentFault::BadSegment);
    }
    Ok(value)
}

/// The body that the last fields of a record of this kind encode.
fn read_body(alloc: Global, kind: Kind, bytes: &[u8]) -> Result<Body, SegmentFault>
    ensures { Finds IsBody (IsBodyIn kind bytes.now) result }
{
    match kind {
        Kind::Concept => match read_concept(bytes) {
            Some(status) => concept_of(status),
            None => Err(SegmentFault::BadSegment),
        },
        Kind::Description => match read_description(bytes) {
            Some(raw) => description_of(alloc, raw),
            None => Err(SegmentFault::BadSegment),
        },
        Kind::Relationship => match read_relationship(bytes) {
            Some(raw) => relationship_of(raw),
            None => Err(SegmentFault::BadSegment),
        },
        Kind::Association => match read_association(bytes) {
            Some(raw) => association_of(raw),
            None => Err(SegmentFault::BadSegment),
        },
        Kind::Concrete => match read_concrete(bytes) {
            Some(raw) => concrete_of(alloc, raw),
            None => Err(SegmentFault::BadSegment),
        },
        Kind::Member => match read_member(bytes) {
            Some(raw) => member_of(alloc, raw),
            None => Err(SegmentFault::BadSegment),
        },
    }
}

/// The row that the fields of a record encode. `bytes` are the fields alone, without the four bytes
/// before them: a checksum there isn't verified here.
pub(crate) fn read_row(alloc: Global, bytes: &[u8]) -> Result<StampedRow, SegmentFault>
    ensures { Finds IsStamped (IsRowIn bytes.now) result }
{
    let Some((common, rest)) = read_common(bytes) else {
        return Err(SegmentFault::BadSegment);
    };
    let kind = kind_of_code(common.kind)?;
    let time = effective_time(common.time)?;
    let import = import_number(common.import)?;
    let active = active_of_code(common.active)?;
    let module_id = sctid(common.module_id)?;
    let body = read_body(alloc, kind, rest)?;
    match Row::of(common.id, time, active, module_id, body) {
        Some(row) => Ok(StampedRow { row, import }),
        None => Err(SegmentFault::BadSegment),
    }
}
