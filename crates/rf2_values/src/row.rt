//! Rows: one version of one component.
//!
//! The columns are those of the SNOMED CT Release File Specifications (RF2), in its sections
//! "Concept File Specification", "Description File Specification", "Relationship File
//! Specification", "Association Reference Set", "Relationship Concrete Values File" and "Reference
//! Set File Specification".

ghost use Rattle.std.specs.Prelude.{◌≡◌, ◌↔◌, IsTrue, IfOk, SomeIff};
ghost use Rattle.rf2_values.specs.Row.{version, IsVersion, kind_of, kind_of_body};
ghost use Rattle.rf2_values.specs.Key.{key_of};

use crate::further::Further;
use crate::key::Key;
use crate::sctid::Sctid;
use crate::text::Text;
use crate::time::EffectiveTime;
use crate::{allowed, length};
use std::alloc::{AllocError, Global};
use std::marker::Model;

/// The kind of the rows in a release file. The kinds are declared in the order in which keys are
/// sorted.
#[derive(Clone, Copy, Debug, PartialEq, Eq, PartialOrd, Ord)]
pub enum Kind {
    Concept,
    Description,
    Relationship,
    /// A member of an association reference set.
    Association,
    /// A relationship whose destination is a value: a number, a text or a boolean.
    Concrete,
    /// A member of any other reference set, whatever further columns it has.
    Member,
}

/// The columns that only concepts have.
#[derive(Clone, Copy, Debug, PartialEq, Eq)]
pub struct Concept {
    /// The column `definitionStatusId`: whether the concept is defined or primitive.
    pub definition_status: Sctid,
}

/// The columns that only descriptions have.
#[derive(Debug, Drop, PartialEq, Eq)]
pub struct Description {
    /// The column `conceptId`: what is described.
    pub concept: Sctid,
    /// The column `languageCode`, unchanged.
    pub language_code: Text,
    /// The column `typeId`: whether it is a fully specified name or a synonym.
    pub type_id: Sctid,
    /// The column `term`, unchanged.
    pub term: Text,
    /// The column `caseSignificanceId`.
    pub case_significance: Sctid,
}

/// The columns that only relationships have.
#[derive(Clone, Copy, Debug, PartialEq, Eq)]
pub struct Relationship {
    /// The column `sourceId`.
    pub source: Sctid,
    /// The column `destinationId`.
    pub destination: Sctid,
    /// The column `relationshipGroup`: 0 if the relationship belongs to no group.
    pub group: u32,
    /// The column `typeId`: how the source is related to the destination.
    pub type_id: Sctid,
    /// The column `characteristicTypeId`: whether it is inferred, and how.
    pub characteristic_type: Sctid,
    /// The column `modifierId`.
    pub modifier: Sctid,
}

/// The columns that only members of an association reference set have.
#[derive(Clone, Copy, Debug, PartialEq, Eq)]
pub struct Association {
    /// The column `refsetId`: what the association means.
    pub refset: Sctid,
    /// The column `referencedComponentId`: a concept, a description or a relationship.
    pub referenced: Sctid,
    /// The column `targetComponentId`: a concept, a description or a relationship.
    pub target: Sctid,
}

/// The columns that only relationships with concrete values have.
#[derive(Debug, Drop, PartialEq, Eq)]
pub struct Concrete {
    /// The column `sourceId`.
    pub source: Sctid,
    /// The column `value`, unchanged: `#` and a number, a text in quotes, or a boolean.
    pub value: Text,
    /// The column `relationshipGroup`: 0 if the relationship belongs to no group.
    pub group: u32,
    /// The column `typeId`: what the value says of the source.
    pub type_id: Sctid,
    /// The column `characteristicTypeId`: whether it is inferred, and how.
    pub characteristic_type: Sctid,
    /// The column `modifierId`.
    pub modifier: Sctid,
}

/// The columns that only members of reference sets have. The columns after those that all reference
/// sets have are kept unchanged.
#[derive(Debug, Drop, PartialEq, Eq)]
pub struct RefsetMember {
    /// The column `refsetId`: the reference set.
    pub refset: Sctid,
    /// The column `referencedComponentId`: a concept, a description or a relationship.
    pub referenced: Sctid,
    /// The further columns, which depend on the pattern of the reference set.
    pub further: Further,
}

/// The columns that only one kind has.
#[derive(Debug, Drop, PartialEq, Eq)]
pub enum Body {
    Concept(Concept),
    Description(Description),
    Relationship(Relationship),
    Association(Association),
    Concrete(Concrete),
    Member(RefsetMember),
}

impl Body {
    /// The kind that has these columns.
    pub fn kind(&self) -> Kind
        ensures { result ≡ kind_of_body self.now }
    {
        match self {
            Body::Concept(_) => Kind::Concept,
            Body::Description(_) => Kind::Description,
            Body::Relationship(_) => Kind::Relationship,
            Body::Association(_) => Kind::Association,
            Body::Concrete(_) => Kind::Concrete,
            Body::Member(_) => Kind::Member,
        }
    }

    /// A copy.
    pub fn try_clone(&self, alloc: Global) -> Result<Body, AllocError>
        ensures { IfOk result (λ b. b ≡ self.now) }
    {
        match self {
            Body::Concept(concept) => Ok(Body::Concept(*concept)),
            Body::Description(description) => Ok(Body::Description(Description {
                concept: description.concept,
                language_code: description.language_code.try_clone(alloc)?,
                type_id: description.type_id,
                term: description.term.try_clone(alloc)?,
                case_significance: description.case_significance,
            })),
            Body::Relationship(relationship) => Ok(Body::Relationship(*relationship)),
            Body::Association(association) => Ok(Body::Association(*association)),
            Body::Concrete(concrete) => Ok(Body::Concrete(Concrete {
                source: concrete.source,
                value: concrete.value.try_clone(alloc)?,
                group: concrete.group,
                type_id: concrete.type_id,
                characteristic_type: concrete.characteristic_type,
                modifier: concrete.modifier,
            })),
            Body::Member(member) => Ok(Body::Member(RefsetMember {
                refset: member.refset,
                referenced: member.referenced,
                further: member.further.try_clone(alloc)?,
            })),
        }
    }
}

/// One version of one component, as a line of a release file spells it.
#[derive(Debug, Drop, PartialEq, Eq)]
pub struct Row {
    /// The column `id`: an SCTID as a number, or a member id (a UUID) as one of 128 bits.
    pub id: u128,
    /// The column `effectiveTime`: the day from which this version holds.
    pub time: EffectiveTime,
    /// The column `active`: false if the component is retired on that day.
    pub active: bool,
    /// The column `moduleId`: the module that publishes the version.
    pub module_id: Sctid,
    /// The columns that only its kind has.
    pub body: Body,
}

impl Model for Row {
    ghost use Rattle.rf2_values.specs.Row.{RowValue, version, IsVersion};

    ghost Value = { RowValue };

    ghost view = { λ r. version r.id r.time r.active r.module_id r.body };

    ghost invariant = { λ r. IsVersion (version r.id r.time r.active r.module_id r.body) };

    ghost inverse = { λ v. record
        { id = v.id; time = v.time; active = v.active; module_id = v.module_id; body = v.body } };
}

impl Row {
    /// The row with these columns, if a line of a release file may have them.
    pub fn of(
        id: u128,
        time: EffectiveTime,
        active: bool,
        module_id: Sctid,
        body: Body,
    ) -> Option<Row>
        // promise: ids_dates_and_texts_are_checked
        ensures { let row = version id time active module_id body in
            SomeIff result (IsVersion row) row }
    {
        let may_stand = allowed::is_id_of(body.kind(), id)
            && allowed::is_concept(module_id)
            && allowed::is_body(&body)
            && length::is_short(id, time, active, module_id, &body);
        if may_stand {
            Some(Row::new(id, time, active, module_id, body))
        } else {
            None
        }
    }

    /// The row with these columns, which a line may have.
    pub fn new(id: u128, time: EffectiveTime, active: bool, module_id: Sctid, body: Body) -> Row
        requires { IsVersion (version id time active module_id body) }
        ensures { result ≡ version id time active module_id body }
    {
        Row {
            id,
            time,
            active,
            module_id,
            body,
        }
    }

    /// The row's kind, which is that of its own columns.
    pub fn kind(&self) -> Kind
        ensures kind { result ≡ kind_of self.now }
        ensures is_row { IsVersion self.now }
    {
        self.body.kind()
    }

    /// The row's key: its kind, its id and its effective time.
    pub fn key(&self) -> Key
        ensures key { result ≡ key_of self.now }
        ensures is_row { IsVersion self.now }
    {
        Key {
            id: self.id,
            time: self.time,
            kind: self.kind(),
        }
    }

    /// Whether the two rows are equal in each column, as `==` says.
    pub fn is_same(&self, other: &Row) -> bool
        ensures { IsTrue result ↔ (self.now ≡ other.now) }
    {
        self == other
    }

    /// A copy.
    pub fn try_clone(&self, alloc: Global) -> Result<Row, AllocError>
        ensures { IfOk result (λ r. r ≡ self.now) }
    {
        Ok(Row::new(
            self.id,
            self.time,
            self.active,
            self.module_id,
            self.body.try_clone(alloc)?,
        ))
    }
}
