//! The length of a row's line.

ghost use Rattle.std.specs.Prelude.{◌≡◌, ◌+◌, ◌≤◌, ◌^◌, ◌↔◌, IsTrue, length, decimal};
ghost use Rattle.rf2_values.specs.Text.{further_columns};
ghost use Rattle.rf2_values.specs.Time.{IsTime};
ghost use Rattle.rf2_values.specs.Private.{columns_len};
ghost use Rattle.rf2_values.specs.Row.{version, canonical, id_text, body_columns, kind_of_body};
ghost use Rattle.rf2_values.specs.Row.{line_limit, IsIdOf, IsConcept, IsBody};

use crate::further::Further;
use crate::row::{Body, Kind};
use crate::sctid::Sctid;
use crate::text::Text;
use crate::time::EffectiveTime;
use itoa::Buffer;

/// The greatest length of a line in bytes, without its end.
pub const LINE_LIMIT: usize = 65_535;

/// The length of the number in bytes, with the TAB before it.
fn number_len(number: u64) -> u128
    ensures value { result ≡ length (decimal number) + 1 }
    ensures short { result ≤ 41 }
{
    Buffer::new().format(number).len() as u128 + 1
}

/// The length of the text in bytes, with the TAB before it.
fn text_len(text: &Text) -> u128
    ensures value { result ≡ length text.now + 1 }
    ensures short { result ≤ 2 ^ 64 }
{
    text.as_bytes().len() as u128 + 1
}

/// The length of the further columns in bytes, with the TABs before them.
fn further_len(further: &Further) -> u128
    ensures value { result ≡ columns_len (further_columns further.now) }
    ensures short { result ≤ 2 ^ 64 }
{
    further.as_bytes().len() as u128
}

/// The length of a row's identifier in bytes.
fn id_len(kind: Kind, id: u128) -> u128
    ensures value { result ≡ length (id_text kind id) }
    ensures short { result ≤ 40 }
{
    match kind {
        Kind::Concept | Kind::Description | Kind::Relationship | Kind::Concrete => {
            Buffer::new().format(id).len() as u128
        }
        Kind::Association | Kind::Member => 36,
    }
}

/// The length of the columns that only this kind has in bytes, each with the TAB before it.
fn body_len(body: &Body) -> u128
    ensures value { result ≡ columns_len (body_columns body.now) }
    ensures short { result ≤ 2 ^ 66 }
{
    match body {
        Body::Concept(columns) => number_len(columns.definition_status.value()),
        Body::Description(columns) => {
            number_len(columns.concept.value())
                + text_len(&columns.language_code)
                + number_len(columns.type_id.value())
                + text_len(&columns.term)
                + number_len(columns.case_significance.value())
        }
        Body::Relationship(columns) => {
            number_len(columns.source.value())
                + number_len(columns.destination.value())
                + number_len(u64::from(columns.group))
                + number_len(columns.type_id.value())
                + number_len(columns.characteristic_type.value())
                + number_len(columns.modifier.value())
        }
        Body::Association(columns) => {
            number_len(columns.refset.value())
                + number_len(columns.referenced.value())
                + number_len(columns.target.value())
        }
        Body::Concrete(columns) => {
            number_len(columns.source.value())
                + text_len(&columns.value)
                + number_len(u64::from(columns.group))
                + number_len(columns.type_id.value())
                + number_len(columns.characteristic_type.value())
                + number_len(columns.modifier.value())
        }
        Body::Member(columns) => {
            number_len(columns.refset.value())
                + number_len(columns.referenced.value())
                + further_len(&columns.further)
        }
    }
}

/// The length of the canonical spelling of a row with these columns, in bytes.
fn line_len(id: u128, time: EffectiveTime, active: bool, module_id: Sctid, body: &Body) -> u128
    ensures { result ≡ length (canonical (version id time active module_id body.now)) }
{
    let flag_len = 2;
    id_len(body.kind(), id)
        + number_len(u64::from(time.value()))
        + flag_len
        + number_len(module_id.value())
        + body_len(body)
}

/// The length of the texts among the columns in bytes, each with the TAB before it. The other
/// columns have at most 126 more bytes.
fn texts_len(body: &Body) -> u128
    requires { IsBody body.now }
    ensures many { columns_len (body_columns body.now) ≤ result + 126 }
    ensures short { result ≤ 2 ^ 65 }
{
    match body {
        Body::Description(columns) => text_len(&columns.language_code) + text_len(&columns.term),
        Body::Concrete(columns) => text_len(&columns.value),
        Body::Member(columns) => further_len(&columns.further),
        Body::Concept(_) | Body::Relationship(_) | Body::Association(_) => 0,
    }
}

/// Whether the canonical spelling of a row with these columns fits in a line. Mostly the lengths of
/// its texts decide this, and no digits are counted.
pub(crate) fn is_short(
    id: u128,
    time: EffectiveTime,
    active: bool,
    module_id: Sctid,
    body: &Body,
) -> bool
    requires id { IsIdOf (kind_of_body body.now) id }
    requires time { IsTime time }
    requires module_id { IsConcept module_id }
    requires body { IsBody body.now }
    ensures { IsTrue result
        ↔ (length (canonical (version id time active module_id body.now)) ≤ line_limit) }
{
    texts_len(body) <= 65_000 || line_len(id, time, active, module_id, body) <= LINE_LIMIT as u128
}
