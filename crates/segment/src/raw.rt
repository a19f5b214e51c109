//! The fields of a record, before any rule of a column is applied to them.

ghost use Rattle.std.specs.Prelude.{◌≡◌, List, [], ◌∷◌};
ghost use Rattle.std.specs.Option.{option_map};
ghost use Rattle.std.specs.Int.{w64};
ghost use Rattle.rf2_values.specs.declared.row.Kind.TheVariants as kinds;
ghost use Rattle.segment.specs.Records.{Field, Number};
ghost use Rattle.segment.specs.Private.Reading.{fields_at, all_at, common_forms, body_forms};
ghost use Rattle.segment.specs.Private.Reading.{raw_common_fields, raw_description_fields};
ghost use Rattle.segment.specs.Private.Reading.{raw_relationship_fields, raw_association_fields};
ghost use Rattle.segment.specs.Private.Reading.{raw_concrete_fields, raw_member_fields};

use crate::fields::{read_text, read_u8, read_u32, read_u64, read_u128};

/// The fields that each record has.
#[derive(Clone, Copy)]
pub(crate) struct RawCommon {
    pub(crate) kind: u8,
    pub(crate) id: u128,
    pub(crate) time: u32,
    pub(crate) import: u32,
    pub(crate) active: u8,
    pub(crate) module_id: u64,
}

#[derive(Clone, Copy)]
pub(crate) struct RawDescription<'a> {
    pub(crate) concept: u64,
    pub(crate) type_id: u64,
    pub(crate) case_significance: u64,
    pub(crate) language_code: &'a [u8],
    pub(crate) term: &'a [u8],
}

#[derive(Clone, Copy)]
pub(crate) struct RawRelationship {
    pub(crate) source: u64,
    pub(crate) destination: u64,
    pub(crate) group: u32,
    pub(crate) type_id: u64,
    pub(crate) characteristic_type: u64,
    pub(crate) modifier: u64,
}

#[derive(Clone, Copy)]
pub(crate) struct RawAssociation {
    pub(crate) refset: u64,
    pub(crate) referenced: u64,
    pub(crate) target: u64,
}

#[derive(Clone, Copy)]
pub(crate) struct RawConcrete<'a> {
    pub(crate) source: u64,
    pub(crate) group: u32,
    pub(crate) type_id: u64,
    pub(crate) characteristic_type: u64,
    pub(crate) modifier: u64,
    pub(crate) value: &'a [u8],
}

#[derive(Clone, Copy)]
pub(crate) struct RawMember<'a> {
    pub(crate) refset: u64,
    pub(crate) referenced: u64,
    pub(crate) further: &'a [u8],
}

pub(crate) fn read_common(bytes: &[u8]) -> Option<(RawCommon, &[u8])>
    ensures { fields_at common_forms bytes.now ≡ option_map
        (λ p. (raw_common_fields p.0, p.1.now)) result }
{
    let (kind, rest) = read_u8(bytes)?;
    let (id, rest) = read_u128(rest)?;
    let (time, rest) = read_u32(rest)?;
    let (import, rest) = read_u32(rest)?;
    let (active, rest) = read_u8(rest)?;
    let (module_id, rest) = read_u64(rest)?;
    Some((
        RawCommon {
            kind,
            id,
            time,
            import,
            active,
            module_id,
        },
        rest,
    ))
}

/// The definition status of a concept.
pub(crate) fn read_concept(bytes: &[u8]) -> Option<u64>
    ensures { all_at (body_forms kinds.Concept) bytes.now ≡ option_map
        (λ n. Number w64 n ∷ []) result }
{
    let (definition_status, rest) = read_u64(bytes)?;
    rest.is_empty().then_some(definition_status)
}

pub(crate) fn read_description(bytes: &[u8]) -> Option<RawDescription<'_>>
    ensures { all_at
        (body_forms kinds.Description) bytes.now ≡ option_map raw_description_fields result }
{
    let (concept, rest) = read_u64(bytes)?;
    let (type_id, rest) = read_u64(rest)?;
    let (case_significance, rest) = read_u64(rest)?;
    let (language_code, rest) = read_text(rest)?;
    let (term, rest) = read_text(rest)?;
    rest.is_empty().then_some(RawDescription {
        concept,
        type_id,
        case_significance,
        language_code,
        term,
    })
}

pub(crate) fn read_relationship(bytes: &[u8]) -> Option<RawRelationship>
    ensures { all_at
        (body_forms kinds.Relationship) bytes.now ≡ option_map raw_relationship_fields result }
{
    let (source, rest) = read_u64(bytes)?;
    let (destination, rest) = read_u64(rest)?;
    let (group, rest) = read_u32(rest)?;
    let (type_id, rest) = read_u64(rest)?;
    let (characteristic_type, rest) = read_u64(rest)?;
    let (modifier, rest) = read_u64(rest)?;
    rest.is_empty().then_some(RawRelationship {
        source,
        destination,
        group,
        type_id,
        characteristic_type,
        modifier,
    })
}

pub(crate) fn read_association(bytes: &[u8]) -> Option<RawAssociation>
    ensures { all_at
        (body_forms kinds.Association) bytes.now ≡ option_map raw_association_fields result }
{
    let (refset, rest) = read_u64(bytes)?;
    let (referenced, rest) = read_u64(rest)?;
    let (target, rest) = read_u64(rest)?;
    rest.is_empty().then_some(RawAssociation {
        refset,
        referenced,
        target,
    })
}

pub(crate) fn read_concrete(bytes: &[u8]) -> Option<RawConcrete<'_>>
    ensures { all_at
        (body_forms kinds.Concrete) bytes.now ≡ option_map raw_concrete_fields result }
{
    let (source, rest) = read_u64(bytes)?;
    let (group, rest) = read_u32(rest)?;
    let (type_id, rest) = read_u64(rest)?;
    let (characteristic_type, rest) = read_u64(rest)?;
    let (modifier, rest) = read_u64(rest)?;
    let (value, rest) = read_text(rest)?;
    rest.is_empty().then_some(RawConcrete {
        source,
        group,
        type_id,
        characteristic_type,
        modifier,
        value,
    })
}

pub(crate) fn read_member(bytes: &[u8]) -> Option<RawMember<'_>>
    ensures { all_at
        (body_forms kinds.Member) bytes.now ≡ option_map raw_member_fields result }
{
    let (refset, rest) = read_u64(bytes)?;
    let (referenced, rest) = read_u64(rest)?;
    let (further, rest) = read_text(rest)?;
    rest.is_empty().then_some(RawMember {
        refset,
        referenced,
        further,
    })
}
