//! Encodes rows as the bytes of their records.

ghost use Rattle.std.specs.Prelude.{◌≡◌, ℕ, ◌+◌, ◌-◌, ◌++◌, ◌^◌, ◌<◌, ◌≤◌, OnOk, IfOk, length, min};
ghost use Rattle.std.specs.List.{AllByRecursion};
ghost use Rattle.rf2_values.specs.declared.row.Kind.TheVariants as kinds;
ghost use Rattle.rf2_values.specs.declared.row.Body.TheVariants as bodies;
ghost use Rattle.rf2_values.specs.Row.{kind_of, line_limit};
ghost use Rattle.history_model.specs.InOrder.{IsAscending};
ghost use Rattle.history_model.specs.History.{stamped, stamped_cmp};
ghost use Rattle.segment.specs.Records.{spelled, kind_code, active_code, body_fields, record_of};
ghost use Rattle.segment.specs.Records.{fields_of, head_of, record_in};
ghost use Rattle.segment.specs.Records.{segment_of, IsStamped, IsSegmentIn};
ghost use Rattle.segment.specs.Private.Reading.{Fits, fixed_len, texts_len};

use crate::writing::{put_text, put_u8, put_u32, put_u64, put_u128};
use checksum::{Form, crc32c};
use history_model::StampedRow;
use rf2_values::{Body, Concrete, Description, Kind, RefsetMember, Relationship, Row};
use std::alloc::{AllocError, Global};

fn code_of(kind: Kind) -> u8
    ensures { result ≡ kind_code kind }
{
    match kind {
        Kind::Concept => 1,
        Kind::Description => 2,
        Kind::Relationship => 3,
        Kind::Association => 4,
        Kind::Concrete => 5,
        Kind::Member => 6,
    }
}

fn code_of_active(active: bool) -> u8
    ensures { result ≡ active_code active }
{
    u8::from(active)
}

/// The total length of the texts of a body, in bytes.
fn text_bytes(body: &Body) -> u32
    requires { texts_len body.now ≤ line_limit }
    ensures { result ≡ texts_len body.now }
{
    match body {
        Body::Description(description) => {
            description.language_code.as_bytes().len() as u32
                + description.term.as_bytes().len() as u32
        }
        Body::Concrete(concrete) => concrete.value.as_bytes().len() as u32,
        Body::Member(member) => member.further.as_bytes().len() as u32,
        Body::Concept(_) | Body::Relationship(_) | Body::Association(_) => 0,
    }
}

/// The length of a record of this kind in bytes, without its texts.
fn fixed_bytes(kind: Kind) -> u32
    ensures { result ≡ fixed_len kind }
{
    match kind {
        Kind::Concept => 46,
        Kind::Description => 66,
        Kind::Relationship => 82,
        Kind::Association => 62,
        Kind::Concrete => 76,
        Kind::Member => 56,
    }
}

/// The length of a row's record in bytes, which is the same for every import.
#[tactic(auto, using(crate::proofs::RecordLaws::texts_room))]
fn row_len(row: &Row) -> u32
    ensures { result ≡ fixed_len (kind_of row.now) + texts_len row.now.body }
{
    fixed_bytes(row.kind()) + text_bytes(&row.body)
}

/// The length of a row's record, in bytes.
#[tactic(auto, using(crate::proofs::RecordLaws::record_size))]
pub(crate) fn record_len(stamped: &StampedRow) -> u32
    ensures { result ≡ length (record_of stamped.now) }
{
    row_len(&stamped.row)
}

fn put_description(out: &mut Vec<u8>, description: &Description) -> Result<(), AllocError>
    requires { AllByRecursion Fits (body_fields (bodies.Description description.now)) }
    ensures { OnOk result
        (out.new.items ≡ out.old.items ++ spelled
        (body_fields (bodies.Description description.now))) }
{
    put_u64(out, description.concept.value())?;
    put_u64(out, description.type_id.value())?;
    put_u64(out, description.case_significance.value())?;
    put_text(out, description.language_code.as_bytes())?;
    put_text(out, description.term.as_bytes())
}

fn put_relationship(out: &mut Vec<u8>, relationship: &Relationship) -> Result<(), AllocError>
    ensures { OnOk result
        (out.new.items ≡ out.old.items ++ spelled
        (body_fields (bodies.Relationship relationship.now))) }
{
    put_u64(out, relationship.source.value())?;
    put_u64(out, relationship.destination.value())?;
    put_u32(out, relationship.group)?;
    put_u64(out, relationship.type_id.value())?;
    put_u64(out, relationship.characteristic_type.value())?;
    put_u64(out, relationship.modifier.value())
}

fn put_concrete(out: &mut Vec<u8>, concrete: &Concrete) -> Result<(), AllocError>
    requires { AllByRecursion Fits (body_fields (bodies.Concrete concrete.now)) }
    ensures { OnOk result
        (out.new.items ≡ out.old.items ++ spelled
        (body_fields (bodies.Concrete concrete.now))) }
{
    put_u64(out, concrete.source.value())?;
    put_u32(out, concrete.group)?;
    put_u64(out, concrete.type_id.value())?;
    put_u64(out, concrete.characteristic_type.value())?;
    put_u64(out, concrete.modifier.value())?;
    put_text(out, concrete.value.as_bytes())
}

fn put_member(out: &mut Vec<u8>, member: &RefsetMember) -> Result<(), AllocError>
    requires { AllByRecursion Fits (body_fields (bodies.Member member.now)) }
    ensures { OnOk result
        (out.new.items ≡ out.old.items ++ spelled (body_fields (bodies.Member member.now))) }
{
    put_u64(out, member.refset.value())?;
    put_u64(out, member.referenced.value())?;
    put_text(out, member.further.as_bytes())
}

fn put_body(out: &mut Vec<u8>, body: &Body) -> Result<(), AllocError>
    requires { AllByRecursion Fits (body_fields body.now) }
    ensures { OnOk result (out.new.items ≡ out.old.items ++ spelled (body_fields body.now)) }
{
    match body {
        Body::Concept(concept) => put_u64(out, concept.definition_status.value()),
        Body::Description(description) => put_description(out, description),
        Body::Relationship(relationship) => put_relationship(out, relationship),
        Body::Association(association) => {
            put_u64(out, association.refset.value())?;
            put_u64(out, association.referenced.value())?;
            put_u64(out, association.target.value())
        }
        Body::Concrete(concrete) => put_concrete(out, concrete),
        Body::Member(member) => put_member(out, member),
    }
}

/// Appends the fields of a record.
fn put_fields(out: &mut Vec<u8>, stamped: &StampedRow) -> Result<(), AllocError>
    requires { 1 ≤ stamped.now.import }
    ensures bytes { OnOk result (out.new.items ≡ out.old.items ++ spelled (fields_of stamped.now)) }
    ensures stamped { OnOk result (IsStamped stamped.now) }
{
    let row = &stamped.row;
    put_u8(out, code_of(row.kind()))?;
    put_u128(out, row.id)?;
    put_u32(out, row.time.value())?;
    put_u32(out, stamped.import)?;
    put_u8(out, code_of_active(row.active))?;
    put_u64(out, row.module_id.value())?;
    put_body(out, &row.body)
}

/// The first four bytes of a record with these fields, as a number: its length, or their checksum.
fn head(form: Form, fields: &[u8]) -> u32
    requires { 4 + length fields.now < 2 ^ 32 }
    ensures { result ≡ head_of form fields.now }
{
    match form {
        Form::Plain => 4 + fields.len() as u32,
        Form::Checked => crc32c(fields),
    }
}

/// Appends the record of a row. Its fields are first encoded in the buffer `fields`, which can be
/// reused for all rows of a segment.
pub fn put_record(
    out: &mut Vec<u8>,
    fields: &mut Vec<u8>,
    form: Form,
    stamped: &StampedRow,
) -> Result<(), AllocError>
    requires { 1 ≤ stamped.now.import }
    ensures bytes { OnOk result (out.new.items ≡ out.old.items ++ record_in form stamped.now) }
    ensures stamped { OnOk result (IsStamped stamped.now) }
{
    fields.clear();
    put_fields(fields, stamped)?;
    put_u32(out, head(form, fields.as_slice()))?;
    out.extend_from_slice(fields.as_slice())?;
    Ok(())
}

/// The length of the segment of these rows in bytes, or `u64::MAX` if it is longer.
pub fn encoded_len(rows: &[StampedRow]) -> u64
    ensures { result ≡ min (length (segment_of rows.now)) (2 ^ 64 - 1) }
{
    let mut len = 0u64;
    for stamped in rows {
        len = len.saturating_add(u64::from(record_len(stamped)));
    }
    len
}

/// The length of the segment of these rows in bytes, whatever import they are of, or `u64::MAX` if it
/// is longer.
pub fn rows_len(rows: &[Row]) -> u64
    ensures { (import : ℕ)
        → result ≡ min (length (segment_of (stamped import rows.now))) (2 ^ 64 - 1) }
{
    let mut bytes = 0u64;
    for row in rows {
        bytes = bytes.saturating_add(u64::from(row_len(row)));
    }
    bytes
}

/// Encodes rows that are in key order as a segment.
pub fn encode(alloc: Global, form: Form, rows: &[StampedRow]) -> Result<Vec<u8>, AllocError>
    requires ascending { IsAscending stamped_cmp rows.now }
    requires from_one { AllByRecursion (λ s. 1 ≤ s.import) rows.now }
    // promise: bytes_are_those_of_the_layout
    ensures { IfOk result (λ bytes. IsSegmentIn form rows.now bytes.items) }
{
    let mut out = Vec::with_capacity(alloc, encoded_len(rows) as usize)?;
    let mut fields = Vec::new(alloc);
    for stamped in rows {
        put_record(&mut out, &mut fields, form, stamped)?;
    }
    Ok(out)
}
