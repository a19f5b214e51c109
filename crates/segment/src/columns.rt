//! Makes the columns of a row from the fields of its record.

ghost use Rattle.std.specs.Prelude.{◌≡◌, [], ◌∷◌};
ghost use Rattle.std.specs.Int.{w64};
ghost use Rattle.rf2_values.specs.Sctid.{IsSctid};
ghost use Rattle.rf2_values.specs.Text.{IsText, IsFurther};
ghost use Rattle.rf2_values.specs.Row.{IsBody};
ghost use Rattle.segment.specs.Records.{Number};
ghost use Rattle.rf2_values.specs.declared.row.Kind.TheVariants as kinds;
ghost use Rattle.segment.specs.Private.Reading.{raw_description_fields, raw_relationship_fields};
ghost use Rattle.segment.specs.Private.Reading.{raw_association_fields, raw_concrete_fields};
ghost use Rattle.segment.specs.Private.Reading.{raw_member_fields};
ghost use Rattle.segment.specs.Private.Finding.{Finds, HasFields};

use crate::fault::SegmentFault;
use crate::raw::{RawAssociation, RawConcrete, RawDescription, RawMember, RawRelationship};
use rf2_values::{
    Association, Body, Concept, Concrete, Description, Further, RefsetMember, Relationship, Sctid,
    Text,
};
use std::alloc::Global;

pub(crate) fn sctid(value: u64) -> Result<Sctid, SegmentFault>
    ensures { Finds IsSctid (λ id. id ≡ value) result }
{
    Sctid::of(value).ok_or(SegmentFault::BadSegment)
}

fn text(alloc: Global, bytes: &[u8]) -> Result<Text, SegmentFault>
    ensures { Finds IsText (λ t. t ≡ bytes.now) result }
{
    Text::of(alloc, bytes)?.ok_or(SegmentFault::BadSegment)
}

fn further(alloc: Global, bytes: &[u8]) -> Result<Further, SegmentFault>
    ensures { Finds IsFurther (λ f. f ≡ bytes.now) result }
{
    Further::of(alloc, bytes)?.ok_or(SegmentFault::BadSegment)
}

pub(crate) fn concept_of(definition_status: u64) -> Result<Body, SegmentFault>
    ensures { Finds IsBody (HasFields kinds.Concept (Number w64 definition_status ∷ [])) result }
{
    let definition_status = sctid(definition_status)?;
    Ok(Body::Concept(Concept { definition_status }))
}

pub(crate) fn description_of(alloc: Global, raw: RawDescription<'_>) -> Result<Body, SegmentFault>
    ensures { Finds IsBody (HasFields kinds.Description (raw_description_fields raw.entry)) result }
{
    let concept = sctid(raw.concept)?;
    let type_id = sctid(raw.type_id)?;
    let case_significance = sctid(raw.case_significance)?;
    let language_code = text(alloc, raw.language_code)?;
    let term = text(alloc, raw.term)?;
    Ok(Body::Description(Description {
        concept,
        language_code,
        type_id,
        term,
        case_significance,
    }))
}

pub(crate) fn relationship_of(raw: RawRelationship) -> Result<Body, SegmentFault>
    ensures { Finds IsBody (HasFields kinds.Relationship (raw_relationship_fields raw)) result }
{
    Ok(Body::Relationship(Relationship {
        source: sctid(raw.source)?,
        destination: sctid(raw.destination)?,
        group: raw.group,
        type_id: sctid(raw.type_id)?,
        characteristic_type: sctid(raw.characteristic_type)?,
        modifier: sctid(raw.modifier)?,
    }))
}

pub(crate) fn association_of(raw: RawAssociation) -> Result<Body, SegmentFault>
    ensures { Finds IsBody (HasFields kinds.Association (raw_association_fields raw)) result }
{
    Ok(Body::Association(Association {
        refset: sctid(raw.refset)?,
        referenced: sctid(raw.referenced)?,
        target: sctid(raw.target)?,
    }))
}

pub(crate) fn concrete_of(alloc: Global, raw: RawConcrete<'_>) -> Result<Body, SegmentFault>
    ensures { Finds IsBody (HasFields kinds.Concrete (raw_concrete_fields raw.entry)) result }
{
    let source = sctid(raw.source)?;
    let type_id = sctid(raw.type_id)?;
    let characteristic_type = sctid(raw.characteristic_type)?;
    let modifier = sctid(raw.modifier)?;
    let value = text(alloc, raw.value)?;
    Ok(Body::Concrete(Concrete {
        source,
        value,
        group: raw.group,
        type_id,
        characteristic_type,
        modifier,
    }))
}

pub(crate) fn member_of(alloc: Global, raw: RawMember<'_>) -> Result<Body, SegmentFault>
    ensures { Finds IsBody (HasFields kinds.Member (raw_member_fields raw.entry)) result }
{
    let refset = sctid(raw.refset)?;
    let referenced = sctid(raw.referenced)?;
    let further = further(alloc, raw.further)?;
    Ok(Body::Member(RefsetMember {
        refset,
        referenced,
        further,
    }))
}
