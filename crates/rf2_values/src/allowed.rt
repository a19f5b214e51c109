//! Which values the columns of a row may have.

ghost use Rattle.std.specs.Prelude.{◌≡◌, ◌↔◌, IsTrue};
ghost use Rattle.rf2_values.specs.Row.{IsConcept, IsComponent, IsOfClass, IsIdOf, IsBody};
ghost use Rattle.rf2_values.specs.Text.{IsText};

use crate::row::{Association, Body, Concrete, Description, Kind, RefsetMember, Relationship};
use crate::sctid::{Class, Sctid};

/// Whether the identifier is a concept's.
pub(crate) fn is_concept(id: Sctid) -> bool
    ensures { IsTrue result ↔ IsConcept id }
{
    id.class() == Some(Class::Concept)
}

/// Whether the identifier is a concept's, a description's or a relationship's.
pub(crate) fn is_component(id: Sctid) -> bool
    ensures { IsTrue result ↔ IsComponent id }
{
    id.class().is_some()
}

/// Whether the number is an SCTID of the class.
fn is_of_class(class: Class, id: u128) -> bool
    ensures { IsTrue result ↔ IsOfClass «class» id }
{
    match u64::try_from(id) {
        Ok(number) => match Sctid::of(number) {
            Some(sctid) => sctid.class() == Some(class),
            None => false,
        },
        Err(_) => false,
    }
}

/// Whether the number may be an id of rows of the kind.
pub(crate) fn is_id_of(kind: Kind, id: u128) -> bool
    ensures { IsTrue result ↔ IsIdOf kind id }
{
    match kind {
        Kind::Concept => is_of_class(Class::Concept, id),
        Kind::Description => is_of_class(Class::Description, id),
        Kind::Relationship | Kind::Concrete => is_of_class(Class::Relationship, id),
        Kind::Association | Kind::Member => true,
    }
}

/// Whether these are columns of a description.
fn is_description(columns: &Description) -> bool
    ensures { IsTrue result ↔ IsBody (Body.Description columns.now) }
{
    // The two texts need no test, since each `Text` is valid.
    let _language_code = columns.language_code.as_bytes();
    let _term = columns.term.as_bytes();
    is_concept(columns.concept)
        && (is_concept(columns.type_id) && is_concept(columns.case_significance))
}

/// Whether these are columns of a relationship.
fn is_relationship(columns: &Relationship) -> bool
    ensures { IsTrue result ↔ IsBody (Body.Relationship columns.now) }
{
    // A line may have any group.
    let _group = columns.group;
    is_concept(columns.source)
        && (is_concept(columns.destination)
            && (is_concept(columns.type_id)
                && (is_concept(columns.characteristic_type) && is_concept(columns.modifier))))
}

/// Whether these are columns of a member of an association reference set.
fn is_association(columns: &Association) -> bool
    ensures { IsTrue result ↔ IsBody (Body.Association columns.now) }
{
    is_concept(columns.refset) && is_component(columns.referenced) && is_component(columns.target)
}

/// Whether these are columns of a relationship with a concrete value.
fn is_concrete(columns: &Concrete) -> bool
    ensures { IsTrue result ↔ IsBody (Body.Concrete columns.now) }
{
    // The value needs no test, since each `Text` is valid, and a line may have any group.
    let _value = columns.value.as_bytes();
    let _group = columns.group;
    is_concept(columns.source)
        && (is_concept(columns.type_id)
            && (is_concept(columns.characteristic_type) && is_concept(columns.modifier)))
}

/// Whether these are columns of a member of a reference set.
fn is_member(columns: &RefsetMember) -> bool
    ensures { IsTrue result ↔ IsBody (Body.Member columns.now) }
{
    // The further columns need no test, since each `Further` is valid.
    let _further = columns.further.as_bytes();
    is_concept(columns.refset) && is_component(columns.referenced)
}

/// Whether these are columns of a row.
pub(crate) fn is_body(body: &Body) -> bool
    ensures { IsTrue result ↔ IsBody body.now }
{
    match body {
        Body::Concept(columns) => is_concept(columns.definition_status),
        Body::Description(columns) => is_description(columns),
        Body::Relationship(columns) => is_relationship(columns),
        Body::Association(columns) => is_association(columns),
        Body::Concrete(columns) => is_concrete(columns),
        Body::Member(columns) => is_member(columns),
    }
}
