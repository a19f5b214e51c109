//! What a row is about.

ghost use Rattle.std.specs.Prelude.{◌≡◌};
ghost use Rattle.history_model.specs.Queries.{subject_of};

use rf2_values::{Body, Row, Sctid};

/// The concept that is the type of an "is a" relationship.
pub const IS_A: u64 = 116_680_003;

/// The component that the row is about: the concept of a description, the source of a relationship,
/// or the component that a member of a reference set refers to; none for a concept.
pub fn subject_of(row: &Row) -> Option<Sctid>
    // promise: nothing_is_left_out_of_an_answer
    ensures { result ≡ subject_of row.now }
{
    match &row.body {
        Body::Concept(_) => None,
        Body::Description(description) => Some(description.concept),
        Body::Relationship(relationship) => Some(relationship.source),
        Body::Association(association) => Some(association.referenced),
        Body::Concrete(concrete) => Some(concrete.source),
        Body::Member(member) => Some(member.referenced),
    }
}
