//! The columns of a line, each with its fault.

ghost use Rattle.std.specs.Prelude.{◌≡◌, ◌<◌, ◌^◌, length, replicate, IfOk, OnOk, MatchResult, decimal};
ghost use Rattle.rf2_values.specs.declared.row.Kind.TheVariants as kind;
ghost use Rattle.rf2_values.specs.Time.{IsTime};
ghost use Rattle.rf2_values.specs.Text.{IsText, IsFurther, further_columns};
ghost use Rattle.rf2_values.specs.Private.{tabbed};
ghost use Rattle.rf2_values.specs.Row.{IsOfClass, IsConcept, IsComponent, IsIdOf, SpellsId, flag};
ghost use Rattle.rf2_rows.specs.Line.{Identifier, Time, Active, ConceptReference};
ghost use Rattle.rf2_rows.specs.Line.{ComponentReference, Number, Text as ColumnText, Any};
ghost use Rattle.rf2_rows.specs.Line.{IsLineFaultThat, HasClassFault, HasFault, FirstFault};
ghost use Rattle.rf2_rows.specs.Line.{columns_of};
ghost use Rattle.rf2_rows.specs.Private.{texts, HaveNoTab};

use crate::fault::{LineFault, RowFault};
use rf2_values::{Class, EffectiveTime, Further, Kind, Member, Sctid, Text, number};
use std::alloc::{AllocError, Global};

/// Replaces the items of the vector by the texts between the TABs.
pub(crate) fn put_columns<'a>(columns: &mut Vec<&'a [u8]>, text: &'a [u8]) -> Result<(), AllocError>
    ensures { OnOk result (texts columns.new.items ≡ columns_of text.now) }
{
    columns.clear();
    let mut begin = 0;
    for (at, byte) in text.iter().enumerate() {
        if *byte == b'\t' {
            columns.push(&text[begin..at])?;
            begin = at + 1;
        }
    }
    columns.push(&text[begin..])?;
    Ok(())
}

/// An SCTID of a class.
fn sctid_of(text: &[u8], class: Class) -> Result<Sctid, LineFault>
    ensures { MatchResult result
        (λ n. IsOfClass class n × (text.now ≡ decimal n))
        (HasClassFault class text.now) }
{
    let Some(id) = Sctid::parse(text) else {
        return Err(LineFault::Id);
    };
    if id.class() == Some(class) {
        Ok(id)
    } else {
        Err(LineFault::Partition)
    }
}

/// The id of a member of a reference set.
fn member_id(text: &[u8]) -> Result<u128, LineFault>
    ensures { MatchResult result
        (λ n. IsIdOf kind.Association n × SpellsId kind.Association n text.now)
        (HasFault (Identifier kind.Association) text.now) }
{
    match Member::parse(text) {
        Some(member) => Ok(member.value()),
        None => Err(LineFault::MemberId),
    }
}

/// A row's own identifier.
pub(crate) fn identifier(kind: Kind, text: &[u8]) -> Result<u128, LineFault>
    ensures { MatchResult result
        (λ n. IsIdOf kind n × SpellsId kind n text.now)
        (HasFault (Identifier kind) text.now) }
{
    match kind {
        Kind::Concept => Ok(u128::from(sctid_of(text, Class::Concept)?.value())),
        Kind::Description => Ok(u128::from(sctid_of(text, Class::Description)?.value())),
        Kind::Relationship | Kind::Concrete => {
            Ok(u128::from(sctid_of(text, Class::Relationship)?.value()))
        }
        Kind::Association | Kind::Member => member_id(text),
    }
}

/// The column `effectiveTime`.
pub(crate) fn effective_time(text: &[u8]) -> Result<EffectiveTime, LineFault>
    ensures { MatchResult result (λ t. IsTime t × (text.now ≡ decimal t)) (HasFault Time text.now) }
{
    EffectiveTime::parse(text).ok_or(LineFault::Time)
}

/// The column `active`.
pub(crate) fn active(text: &[u8]) -> Result<bool, LineFault>
    ensures { MatchResult result (λ b. text.now ≡ flag b) (HasFault Active text.now) }
{
    match text {
        [b'0'] => Ok(false),
        [b'1'] => Ok(true),
        _ => Err(LineFault::Active),
    }
}

/// The identifier of a concept.
pub(crate) fn concept_reference(text: &[u8]) -> Result<Sctid, LineFault>
    ensures { MatchResult result
        (λ n. IsConcept n × (text.now ≡ decimal n))
        (HasFault ConceptReference text.now) }
{
    match Sctid::parse(text) {
        Some(id) if id.class() == Some(Class::Concept) => Ok(id),
        _ => Err(LineFault::Reference),
    }
}

/// The identifier of a concept, a description or a relationship.
pub(crate) fn component_reference(text: &[u8]) -> Result<Sctid, LineFault>
    ensures { MatchResult result
        (λ n. IsComponent n × (text.now ≡ decimal n))
        (HasFault ComponentReference text.now) }
{
    match Sctid::parse(text) {
        Some(id) if id.class().is_some() => Ok(id),
        _ => Err(LineFault::Reference),
    }
}

/// A number of 32 bits, without leading zeros.
pub(crate) fn group(text: &[u8]) -> Result<u32, LineFault>
    ensures { MatchResult result
        (λ n. (n < 2 ^ 32) × (text.now ≡ decimal n))
        (HasFault Number text.now) }
{
    match number::parse(text) {
        Some(value) => match u32::try_from(value) {
            Ok(value) => Ok(value),
            Err(_) => Err(LineFault::Number),
        },
        None => Err(LineFault::Number),
    }
}

/// A text that isn't empty, as the column requires.
pub(crate) fn some_text(alloc: Global, text: &[u8]) -> Result<Text, RowFault>
    ensures { MatchResult result
        (λ t. IsText t × (t ≡ text.now))
        (IsLineFaultThat (HasFault ColumnText text.now)) }
{
    match Text::of(alloc, text)? {
        Some(text) => Ok(text),
        None => Err(RowFault::Line(LineFault::EmptyText)),
    }
}

/// Joins the columns, with a TAB before each.
#[tactic(auto, using(crate::proofs::Texts::joined_more))]
fn join(alloc: Global, columns: &[&[u8]]) -> Result<Vec<u8>, AllocError>
    ensures { IfOk result (λ bytes. bytes.items ≡ tabbed (texts columns.now)) }
{
    let mut bytes = Vec::new(alloc);
    for column in columns {
        bytes.push(b'\t')?;
        bytes.extend_from_slice(column)?;
    }
    Ok(bytes)
}

/// The columns after those with a known meaning.
pub(crate) fn further(alloc: Global, columns: &[&[u8]]) -> Result<Further, RowFault>
    requires { HaveNoTab (texts columns.now) }
    ensures { MatchResult result
        (λ f. IsFurther f × (texts columns.now ≡ further_columns f))
        (IsLineFaultThat
        (FirstFault (replicate (length columns.now) Any) (texts columns.now))) }
{
    let bytes = join(alloc, columns)?;
    match Further::of(alloc, &bytes)? {
        Some(further) => Ok(further),
        None => Err(RowFault::Line(LineFault::EmptyText)),
    }
}
