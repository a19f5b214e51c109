//! What a row is found by, and the order of postings.

ghost use Rattle.std.specs.Prelude.{◌≡◌, ◌≤◌};
ghost use Rattle.links.specs.Edges.{tag_place, posting_rank, rank_of};

/// What the numbers of a posting are.
#[derive(Clone, Copy)]
pub enum Tag {
    /// Of an active relationship: its destination and its type, as SCTIDs. It leads to its source.
    Source,
    /// Of an active "is a" relationship: its source and its type, as SCTIDs. It leads to its
    /// destination.
    Parent,
    /// Of an active association: its target and its reference set, as SCTIDs.
    Target,
    /// Of a member of a reference set, active or not: the reference set, and the component that the
    /// member refers to, as SCTIDs.
    Member,
}

/// What a row is found by: two numbers, which the tag explains; and what it leads to.
#[derive(Clone, Copy)]
pub struct Posting {
    /// The first number.
    pub first: u64,
    /// The second number.
    pub second: u64,
    /// The concept that a relationship leads to, as an SCTID; 0 for other rows.
    pub end: u64,
    /// The row's number in its segment, from 0 on.
    pub row: u32,
    /// What the numbers are.
    pub tag: Tag,
    /// Whether the row is active.
    pub active: bool,
}

/// The place of a tag among the tags.
pub(crate) fn place_of(tag: Tag) -> u8
    ensures place { result ≡ tag_place tag }
    ensures few { result ≤ 3 }
{
    match tag {
        Tag::Source => 0,
        Tag::Parent => 1,
        Tag::Target => 2,
        Tag::Member => 3,
    }
}

/// The rank by which postings are sorted: by the tag, then by the first number, then by the second.
pub(crate) fn rank(tag: Tag, first: u64, second: u128) -> u128
    ensures { result ≡ posting_rank tag first second }
{
    let greatest = 1_152_921_504_606_846_975;
    let first = if first < greatest { first } else { greatest };
    let last = u128::from(u64::MAX);
    let second = if second < last { second } else { last };
    let high = 1_152_921_504_606_846_976 * u128::from(place_of(tag)) + u128::from(first);
    high * 18_446_744_073_709_551_616 + second
}

/// The rank of a posting.
pub(crate) fn rank_of(p: &Posting) -> u128
    ensures { result ≡ rank_of p.now }
{
    rank(p.tag, p.first, u128::from(p.second))
}
