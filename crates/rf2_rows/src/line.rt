//! Reads a row from a line.

ghost use Rattle.std.specs.Prelude.{◌≡◌, ◌≤◌, ◌⊎◌, ◌↔◌, ℕ, [], ◌∷◌, length, replicate, decimal};
ghost use Rattle.std.specs.Prelude.{IsTrue, MatchResult, IfOk, IfErr};
ghost use Rattle.rf2_values.specs.declared.row.Kind.TheVariants as kind;
ghost use Rattle.rf2_rows.specs.declared.fault.LineFault.{LineFault};
ghost use Rattle.rf2_rows.specs.declared.fault.RowFault.TheVariants as rowfault;
ghost use Rattle.rf2_values.specs.Time.{IsTime};
ghost use Rattle.rf2_values.specs.Row.{RowValue, IsVersion, IsBody, IsConcept, IsIdOf};
ghost use Rattle.rf2_values.specs.Row.{kind_of_body, body_columns};
ghost use Rattle.rf2_values.specs.Row.{Spells, SpellsId, SpellsColumns, flag as flag_text};
ghost use Rattle.rf2_values.specs.Row.{line_limit, line_of};
ghost use Rattle.rf2_rows.specs.Line.{IsLineFaultThat, FirstFault, columns_in, common_layout};
ghost use Rattle.rf2_rows.specs.Line.{own_layout, own_columns, HasShape};
ghost use Rattle.rf2_rows.specs.Line.{ConceptReference, ComponentReference, Any};
ghost use Rattle.rf2_rows.specs.Line.{IsFaultOfColumns, IsFaultOf};
ghost use Rattle.rf2_rows.specs.Private.{texts, HaveNoTab, IsLineReading};

use crate::columns::{
    active, component_reference, concept_reference, effective_time, further, group, identifier,
    put_columns, some_text,
};
use crate::fault::{LineFault, RowFault};
use crate::shape::Shape;
use bstr::ByteSlice;
use rf2_values::{
    Association, Body, Concept, Concrete, Description, EffectiveTime, Kind, LINE_LIMIT,
    RefsetMember, Relationship, Row, Sctid,
};
use std::alloc::Global;

/// The columns that every kind has.
#[derive(Clone, Copy)]
struct Common {
    id: u128,
    time: EffectiveTime,
    active: bool,
    module_id: Sctid,
}

/// The columns that every kind has, from their texts.
#[tactic(auto, using(crate::proofs::Faults::fault_here, crate::proofs::Faults::fault_later, crate::proofs::Faults::fault_past_three))]
fn read_common(
    kind: Kind,
    id: &[u8],
    time: &[u8],
    flag: &[u8],
    module_id: &[u8],
) -> Result<Common, LineFault>
    ensures { MatchResult result
        (λ c. IsIdOf kind c.id × SpellsId kind c.id id.now
        × IsTime c.time × (time.now ≡ decimal c.time)
        × (flag.now ≡ flag_text c.active)
        × IsConcept c.module_id × (module_id.now ≡ decimal c.module_id))
        (FirstFault (columns_in (common_layout kind))
        (id.now ∷ time.now ∷ flag.now ∷ module_id.now ∷ [])) }
{
    Ok(Common {
        id: identifier(kind, id)?,
        time: effective_time(time)?,
        active: active(flag)?,
        module_id: concept_reference(module_id)?,
    })
}

/// The columns that only concepts have.
#[tactic(auto, using(crate::proofs::Faults::fault_here, crate::proofs::Faults::fault_later, crate::proofs::Faults::fault_past_three))]
fn read_concept(definition_status: &[u8]) -> Result<Body, LineFault>
    ensures { MatchResult result
        (λ b. (kind_of_body b ≡ kind.Concept) × IsBody b
        × (definition_status.now ∷ [] ≡ body_columns b))
        (FirstFault (columns_in (own_layout kind.Concept)) (definition_status.now ∷ [])) }
{
    Ok(Body::Concept(Concept {
        definition_status: concept_reference(definition_status)?,
    }))
}

/// The columns that only descriptions have.
#[tactic(auto, using(crate::proofs::Faults::fault_here, crate::proofs::Faults::fault_later, crate::proofs::Faults::fault_past_three))]
fn read_description(
    alloc: Global,
    concept: &[u8],
    language_code: &[u8],
    type_id: &[u8],
    term: &[u8],
    case_significance: &[u8],
) -> Result<Body, RowFault>
    ensures { MatchResult result
        (λ b. (kind_of_body b ≡ kind.Description) × IsBody b
        × (concept.now ∷ language_code.now ∷ type_id.now ∷ term.now ∷ case_significance.now ∷ []
        ≡ body_columns b))
        (IsLineFaultThat (FirstFault (columns_in (own_layout kind.Description))
        (concept.now ∷ language_code.now ∷ type_id.now ∷ term.now ∷ case_significance.now ∷ []))) }
{
    Ok(Body::Description(Description {
        concept: concept_reference(concept)?,
        language_code: some_text(alloc, language_code)?,
        type_id: concept_reference(type_id)?,
        term: some_text(alloc, term)?,
        case_significance: concept_reference(case_significance)?,
    }))
}

/// The columns that only relationships have.
#[tactic(auto, using(crate::proofs::Faults::fault_here, crate::proofs::Faults::fault_later, crate::proofs::Faults::fault_past_three))]
fn read_relationship(
    source: &[u8],
    destination: &[u8],
    number: &[u8],
    type_id: &[u8],
    characteristic_type: &[u8],
    modifier: &[u8],
) -> Result<Body, LineFault>
    ensures { MatchResult result
        (λ b. (kind_of_body b ≡ kind.Relationship) × IsBody b
        ×
        (source.now ∷ destination.now ∷ number.now ∷ type_id.now ∷ characteristic_type.now
        ∷ modifier.now ∷ []
        ≡ body_columns b))
        (FirstFault (columns_in (own_layout kind.Relationship))
        (source.now ∷ destination.now ∷ number.now ∷ type_id.now ∷ characteristic_type.now
        ∷ modifier.now ∷ [])) }
{
    Ok(Body::Relationship(Relationship {
        source: concept_reference(source)?,
        destination: concept_reference(destination)?,
        group: group(number)?,
        type_id: concept_reference(type_id)?,
        characteristic_type: concept_reference(characteristic_type)?,
        modifier: concept_reference(modifier)?,
    }))
}

/// The columns that only members of association reference sets have.
#[tactic(auto, using(crate::proofs::Faults::fault_here, crate::proofs::Faults::fault_later, crate::proofs::Faults::fault_past_three))]
fn read_association(refset: &[u8], referenced: &[u8], target: &[u8]) -> Result<Body, LineFault>
    ensures { MatchResult result
        (λ b. (kind_of_body b ≡ kind.Association) × IsBody b
        × (refset.now ∷ referenced.now ∷ target.now ∷ [] ≡ body_columns b))
        (FirstFault (columns_in (own_layout kind.Association))
        (refset.now ∷ referenced.now ∷ target.now ∷ [])) }
{
    Ok(Body::Association(Association {
        refset: concept_reference(refset)?,
        referenced: component_reference(referenced)?,
        target: component_reference(target)?,
    }))
}

/// The columns that only relationships with a concrete value have.
#[tactic(auto, using(crate::proofs::Faults::fault_here, crate::proofs::Faults::fault_later, crate::proofs::Faults::fault_past_three))]
fn read_concrete(
    alloc: Global,
    source: &[u8],
    value: &[u8],
    number: &[u8],
    type_id: &[u8],
    characteristic_type: &[u8],
    modifier: &[u8],
) -> Result<Body, RowFault>
    ensures { MatchResult result
        (λ b. (kind_of_body b ≡ kind.Concrete) × IsBody b
        ×
        (source.now ∷ value.now ∷ number.now ∷ type_id.now ∷ characteristic_type.now
        ∷ modifier.now ∷ []
        ≡ body_columns b))
        (IsLineFaultThat (FirstFault (columns_in (own_layout kind.Concrete))
        (source.now ∷ value.now ∷ number.now ∷ type_id.now ∷ characteristic_type.now
        ∷ modifier.now ∷ []))) }
{
    Ok(Body::Concrete(Concrete {
        source: concept_reference(source)?,
        value: some_text(alloc, value)?,
        group: group(number)?,
        type_id: concept_reference(type_id)?,
        characteristic_type: concept_reference(characteristic_type)?,
        modifier: concept_reference(modifier)?,
    }))
}

/// The columns that only members of other reference sets have.
fn read_member(
    alloc: Global,
    refset: &[u8],
    referenced: &[u8],
    others: &[&[u8]],
) -> Result<Body, RowFault>
    requires { HaveNoTab (texts others.now) }
    ensures { MatchResult result
        (λ b. (kind_of_body b ≡ kind.Member) × IsBody b
        × (refset.now ∷ referenced.now ∷ texts others.now ≡ body_columns b))
        (IsLineFaultThat (FirstFault
        (ConceptReference ∷ ComponentReference ∷ replicate (length others.now) Any)
        (refset.now ∷ referenced.now ∷ texts others.now))) }
{
    Ok(Body::Member(RefsetMember {
        refset: concept_reference(refset)?,
        referenced: component_reference(referenced)?,
        further: further(alloc, others)?,
    }))
}

/// Whether lines of the shape have this many columns besides the common ones.
fn has_own_count(shape: Shape, count: usize) -> bool
    ensures { IsTrue result ↔ (count ≡ length (own_columns shape)) }
{
    match shape.kind {
        Kind::Concept => count == 1,
        Kind::Description => count == 5,
        Kind::Relationship | Kind::Concrete => count == 6,
        Kind::Association => count == 3,
        Kind::Member => count >= 2 && count - 2 == shape.further,
    }
}

/// The columns of a line of the shape, besides the common ones.
fn read_own(alloc: Global, shape: Shape, own: &[&[u8]]) -> Result<Body, RowFault>
    requires as_many { length own.now ≡ length (own_columns shape) }
    requires no_tab { HaveNoTab (texts own.now) }
    ensures { MatchResult result
        (λ b. (kind_of_body b ≡ shape.kind) × IsBody b × (texts own.now ≡ body_columns b))
        (IsLineFaultThat (FirstFault (own_columns shape) (texts own.now))) }
{
    match shape.kind {
        Kind::Concept => Ok(read_concept(own[0])?),
        Kind::Description => read_description(alloc, own[0], own[1], own[2], own[3], own[4]),
        Kind::Relationship => Ok(read_relationship(
            own[0], own[1], own[2], own[3], own[4], own[5],
        )?),
        Kind::Association => Ok(read_association(own[0], own[1], own[2])?),
        Kind::Concrete => read_concrete(alloc, own[0], own[1], own[2], own[3], own[4], own[5]),
        Kind::Member => read_member(alloc, own[0], own[1], &own[2..]),
    }
}

/// The row that the columns spell.
fn read_columns(alloc: Global, shape: Shape, columns: &[&[u8]]) -> Result<Row, RowFault>
    requires short { length (line_of (texts columns.now)) ≤ line_limit }
    requires no_tab { HaveNoTab (texts columns.now) }
    ensures { MatchResult result
        (λ v. HasShape shape v × IsVersion v × SpellsColumns v (texts columns.now))
        (IsLineFaultThat (IsFaultOfColumns shape (texts columns.now))) }
{
    let [id, time, flag, module_id, own @ ..] = columns else {
        return Err(RowFault::Line(LineFault::Columns));
    };
    if !has_own_count(shape, own.len()) {
        return Err(RowFault::Line(LineFault::Columns));
    }
    let common = read_common(shape.kind, id, time, flag, module_id)?;
    let body = read_own(alloc, shape, own)?;
    Ok(Row::new(
        common.id,
        common.time,
        common.active,
        common.module_id,
        body,
    ))
}

/// The row that a line spells. The vector is used for the line's columns; what was in it doesn't
/// matter.
pub(crate) fn read_line<'a>(
    alloc: Global,
    room: &mut Vec<&'a [u8]>,
    shape: Shape,
    text: &'a [u8],
) -> Result<Row, RowFault>
    ensures { IsLineReading shape text.now result }
{
    if text.len() > LINE_LIMIT {
        return Err(RowFault::Line(LineFault::LineLength));
    }
    if !text.is_utf8() {
        return Err(RowFault::Line(LineFault::NotUtf8));
    }
    put_columns(room, text)?;
    read_columns(alloc, shape, room)
}

/// The row that a line of a file of the shape spells, without its line end.
pub fn parse_line(alloc: Global, shape: Shape, text: &[u8]) -> Result<Row, RowFault>
    // A row that is read is the one that the line spells.
    // promise: a_release_file_is_read_exactly
    ensures found { IfOk result (λ v. HasShape shape v × Spells v text.now) }
    // A line that spells a row is read, unless memory runs out.
    // promise: a_release_file_is_read_exactly
    ensures only { (v : RowValue) → HasShape shape v → Spells v text.now
        → MatchResult result (λ w. w ≡ v) (λ e. e ≡ rowfault.OutOfMemory) }
    // A fault is the line's first fault.
    // promise: a_refusal_names_its_cause
    ensures fault { IfErr result (IsLineFaultThat (IsFaultOf shape text.now)) }
    // A line with this fault is refused with it, unless memory runs out.
    // promise: a_refusal_names_its_cause
    ensures refused { (f : LineFault) → IsFaultOf shape text.now f
        → MatchResult result (λ v. ⊥) (λ e. (e ≡ rowfault.OutOfMemory) ⊎ (e ≡ rowfault.Line f)) }
{
    let mut room = Vec::new(alloc);
    read_line(alloc, &mut room, shape, text)
}
