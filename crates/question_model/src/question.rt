//! The questions, by what they are answered with.

ghost use Rattle.std.specs.Prelude.{◌↔◌, IsTrue};
ghost use Rattle.history_model.specs.InOrder.{Has};
ghost use Rattle.question_model.specs.Questions.{row_question_of};
ghost use Rattle.question_model.specs.Wanted.{kinds_for};

use rf2_values::{EffectiveTime, Key, Kind, Sctid};

/// A question for rows, among those that a pin shows.
#[derive(Clone, Copy, Debug, PartialEq, Eq)]
pub enum RowQuestion<'a> {
    /// The component's row at the date.
    Get {
        kind: Kind,
        id: u128,
        date: EffectiveTime,
    },
    /// All versions of the component, ascending by time.
    History {
        kind: Kind,
        id: u128,
    },
    /// The first rows of a kind at the date, at most `limit`, ascending by id and with ids greater
    /// than `after`, if that is given.
    Page {
        kind: Kind,
        date: EffectiveTime,
        after: Option<u128>,
        limit: u32,
    },
    /// What changed from one date to another: the first rows of a kind at the date that are later
    /// than `from`, at most `limit`, ascending by id and with ids greater than `after`, if that is
    /// given.
    Delta {
        kind: Kind,
        from: EffectiveTime,
        date: EffectiveTime,
        after: Option<u128>,
        limit: u32,
    },
    /// Active descriptions whose term begins with the prefix, ignoring case: the first `limit`,
    /// ascending by id.
    Terms {
        prefix: &'a str,
        date: EffectiveTime,
        limit: u32,
    },
    /// The same, with ids greater than `after`, if that is given.
    Search {
        prefix: &'a str,
        date: EffectiveTime,
        after: Option<u128>,
        limit: u32,
    },
    /// Active descriptions, of a type, if one is given, for which each word of the text begins a word
    /// of the term: the shortest terms first, then by id, `limit` of them after the first `offset`.
    Words {
        date: EffectiveTime,
        wanted_type: Option<Sctid>,
        offset: u32,
        limit: u32,
        text: &'a str,
    },
    /// The active rows of a kind that are about a component, ascending by id: the descriptions of a
    /// concept, the relationships whose source it is, the associations that refer to it.
    About {
        kind: Kind,
        id: Sctid,
        date: EffectiveTime,
    },
    /// All versions of each component of a kind that ever had an active row about a component,
    /// ascending by id, then by time.
    Timeline {
        kind: Kind,
        id: Sctid,
    },
    /// The active associations whose referenced component is the given one, ascending by refset,
    /// target and member. It takes one step: it doesn't follow a target further.
    Replaced {
        id: Sctid,
        date: EffectiveTime,
    },
    /// The active associations of which a component is the target, ascending by refset, referenced
    /// component and member: those that name it as a replacement of other components.
    Replaces {
        id: Sctid,
        date: EffectiveTime,
    },
    /// The first members of a reference set, active or not, at most `limit`, ascending by id and
    /// with ids greater than `after`, if that is given.
    Members {
        refset: Sctid,
        date: EffectiveTime,
        after: Option<u128>,
        limit: u32,
    },
    /// The active members of a reference set that refer to a component greater than `after`, if
    /// that is given, ascending by that component, then by id: the first `limit`, and with the last
    /// of them all that refer to the same component.
    Values {
        refset: Sctid,
        date: EffectiveTime,
        after: Option<u64>,
        limit: u32,
    },
    /// What a concept is called in a language: the active descriptions about it, ascending by id,
    /// that have active members in the language's reference set, each followed by these members.
    Called {
        concept: Sctid,
        date: EffectiveTime,
        refset: Sctid,
    },
    /// All versions of the components of a kind, in the order of their keys: the first rows whose
    /// keys are greater than `after`, if that is given, at most `limit`.
    AllRows {
        kind: Kind,
        after: Option<Key>,
        limit: u32,
    },
}

impl RowQuestion<'_> {
    /// Whether a row of the answer may be of this kind.
    pub fn may_have(&self, kind: Kind) -> bool
        ensures { IsTrue result ↔ Has (kinds_for (row_question_of self.now)) kind }
    {
        match *self {
            RowQuestion::Get { kind: own, .. }
            | RowQuestion::History { kind: own, .. }
            | RowQuestion::About { kind: own, .. }
            | RowQuestion::Timeline { kind: own, .. }
            | RowQuestion::Page { kind: own, .. }
            | RowQuestion::Delta { kind: own, .. }
            | RowQuestion::AllRows { kind: own, .. } => own == kind,
            RowQuestion::Terms { .. } | RowQuestion::Search { .. } | RowQuestion::Words { .. } => {
                kind == Kind::Description
            }
            RowQuestion::Replaced { .. } | RowQuestion::Replaces { .. } => {
                kind == Kind::Association
            }
            RowQuestion::Members { .. } | RowQuestion::Values { .. } => kind == Kind::Member,
            RowQuestion::Called { .. } => kind == Kind::Description || kind == Kind::Member,
        }
    }
}

/// A question for identifiers at a date, ascending, among the rows that a pin shows.
#[derive(Clone, Copy, Debug, PartialEq, Eq)]
pub enum IdQuestion {
    /// The sources of the active "is a" relationships to a concept.
    Children {
        concept: Sctid,
        date: EffectiveTime,
    },
    /// All concepts above a concept: those that are reached from it by one or more active "is a"
    /// relationships, each from a concept to a parent.
    Ancestors {
        concept: Sctid,
        date: EffectiveTime,
    },
    /// All concepts below a concept: those that are reached from it by one or more active "is a"
    /// relationships, each from a concept to a child.
    Descendants {
        concept: Sctid,
        date: EffectiveTime,
    },
    /// The sources of the active relationships to a destination, of a type, if one is given: the
    /// first ones that are greater than `after`, if that is given, at most `limit`.
    Sources {
        type_id: Option<Sctid>,
        destination: Sctid,
        date: EffectiveTime,
        after: Option<u64>,
        limit: u32,
    },
}

/// A question about the imports that a session sees. A question changes nothing, and its answer
/// depends on the session's pin.
#[derive(Clone, Copy, Debug, PartialEq, Eq)]
pub enum Question<'a> {
    /// For rows.
    ForRows(RowQuestion<'a>),
    /// For identifiers.
    ForIds(IdQuestion),
    /// The effective times of all rows.
    Dates,
    /// The digest of all rows.
    Digest,
    /// How many rows an import brought, and the latest date among them.
    Receipt {
        number: u32,
    },
    /// The rows of a kind that an import was the first to bring, in the order of their keys: the
    /// first ones whose keys are greater than `after`, if that is given, at most `limit`.
    Added {
        number: u32,
        kind: Kind,
        after: Option<Key>,
        limit: u32,
    },
}
