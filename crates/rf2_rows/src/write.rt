//! Writes a row as a line.

ghost use Rattle.std.specs.Prelude.{◌≡◌, ◌++◌, ◌∷◌, OnOk, OnErr, decimal};
ghost use Rattle.rf2_values.specs.Row.{canonical, flag, id_text, body_columns};
ghost use Rattle.rf2_values.specs.Private.{tabbed};
ghost use Rattle.rf2_rows.specs.Private.{StaysInFront};

use itoa::Buffer;
use rf2_values::{Body, Kind, Member, Row, Text};
use std::alloc::AllocError;

/// Appends a TAB and a number.
fn put_number(line: &mut Vec<u8>, number: u64) -> Result<(), AllocError>
    ensures ok { OnOk result (line.new.items ≡ line.old.items ++ 9 ∷ decimal number) }
    ensures stays { StaysInFront line.old.items line.new.items }
{
    line.push(b'\t')?;
    line.extend_from_slice(Buffer::new().format(number).as_bytes())
}

/// Appends a TAB and a flag.
fn put_flag(line: &mut Vec<u8>, active: bool) -> Result<(), AllocError>
    ensures ok { OnOk result (line.new.items ≡ line.old.items ++ 9 ∷ flag active) }
    ensures stays { StaysInFront line.old.items line.new.items }
{
    line.push(b'\t')?;
    line.push(if active { b'1' } else { b'0' })?;
    Ok(())
}

/// Appends a TAB and a text.
fn put_text(line: &mut Vec<u8>, text: &Text) -> Result<(), AllocError>
    ensures ok { OnOk result (line.new.items ≡ line.old.items ++ 9 ∷ text.now) }
    ensures stays { StaysInFront line.old.items line.new.items }
{
    line.push(b'\t')?;
    line.extend_from_slice(text.as_bytes())
}

/// Appends a row's own identifier.
fn put_id(line: &mut Vec<u8>, kind: Kind, id: u128) -> Result<(), AllocError>
    ensures ok { OnOk result (line.new.items ≡ line.old.items ++ id_text kind id) }
    ensures stays { StaysInFront line.old.items line.new.items }
{
    match kind {
        Kind::Concept | Kind::Description | Kind::Relationship | Kind::Concrete => {
            line.extend_from_slice(Buffer::new().format(id).as_bytes())
        }
        Kind::Association | Kind::Member => Member::of(id).write(line),
    }
}

/// Appends the columns that only this kind has, with a TAB before each.
fn put_own(line: &mut Vec<u8>, body: &Body) -> Result<(), AllocError>
    ensures ok { OnOk result (line.new.items ≡ line.old.items ++ tabbed (body_columns body.now)) }
    ensures stays { StaysInFront line.old.items line.new.items }
{
    match body {
        Body::Concept(concept) => put_number(line, concept.definition_status.value()),
        Body::Description(description) => {
            put_number(line, description.concept.value())?;
            put_text(line, &description.language_code)?;
            put_number(line, description.type_id.value())?;
            put_text(line, &description.term)?;
            put_number(line, description.case_significance.value())
        }
        Body::Relationship(relationship) => {
            put_number(line, relationship.source.value())?;
            put_number(line, relationship.destination.value())?;
            put_number(line, u64::from(relationship.group))?;
            put_number(line, relationship.type_id.value())?;
            put_number(line, relationship.characteristic_type.value())?;
            put_number(line, relationship.modifier.value())
        }
        Body::Association(association) => {
            put_number(line, association.refset.value())?;
            put_number(line, association.referenced.value())?;
            put_number(line, association.target.value())
        }
        Body::Concrete(concrete) => {
            put_number(line, concrete.source.value())?;
            put_text(line, &concrete.value)?;
            put_number(line, u64::from(concrete.group))?;
            put_number(line, concrete.type_id.value())?;
            put_number(line, concrete.characteristic_type.value())?;
            put_number(line, concrete.modifier.value())
        }
        Body::Member(member) => {
            put_number(line, member.refset.value())?;
            put_number(line, member.referenced.value())?;
            line.extend_from_slice(member.further.as_bytes())
        }
    }
}

/// Appends a row's canonical spelling, or without memory perhaps a part of it.
fn put_row(line: &mut Vec<u8>, row: &Row) -> Result<(), AllocError>
    ensures ok { OnOk result (line.new.items ≡ line.old.items ++ canonical row.now) }
    ensures stays { StaysInFront line.old.items line.new.items }
{
    put_id(line, row.kind(), row.id)?;
    put_number(line, u64::from(row.time.value()))?;
    put_flag(line, row.active)?;
    put_number(line, row.module_id.value())?;
    put_own(line, &row.body)?;
    Ok(())
}

/// Appends the row's canonical spelling, without a line end: it is that of the file, except that
/// member ids are in lower case.
pub fn write_row(row: &Row, out: &mut Vec<u8>) -> Result<(), AllocError>
    // promise: a_release_file_is_read_exactly
    ensures ok { OnOk result (out.new.items ≡ out.old.items ++ canonical row.now) }
    // promise: a_release_file_is_read_exactly
    ensures err { OnErr result (out.new.items ≡ out.old.items) }
{
    let len = out.len();
    let written = put_row(out, row);
    if written.is_err() {
        out.truncate(len);
    }
    written
}
