//! Laws of the definitions, each the contract of a function that does nothing.

ghost use Rattle.segment.specs.Records.{OneSegment, OneRecord, EachAtItsPlace, PiecesJoin};
ghost use Rattle.segment.specs.Records.{EquallyLong, PlainIsAsBefore, ChangedByteIsNoticed};
ghost use Rattle.segment.specs.Records.{ChangedRecordIsNone};
ghost use Rattle.segment.specs.Standing.{EachStandsAtItsByte};

/// Bytes are the segment of at most one list of rows.
pub fn one_segment()
    // promise: bytes_are_those_of_the_layout
    ensures { OneSegment }
{}

/// At an offset there is the record of at most one row, and it ends at one offset.
pub fn one_record()
    // promise: bytes_are_those_of_the_layout
    ensures { OneRecord }
{}

/// In a segment each row's record begins where those of the rows before it end.
pub fn each_at_its_place()
    // promise: bytes_are_those_of_the_layout
    ensures { EachAtItsPlace }
{}

/// The bytes of two lists of rows are those of the two lists joined.
pub fn pieces_join()
    // promise: bytes_are_those_of_the_layout
    ensures { PiecesJoin }
{}

/// If a row is at a place, its record is at that byte of its list's segment, and the place has its
/// key and its import number.
pub fn each_stands_at_its_byte()
    // promise: bytes_are_those_of_the_layout
    ensures { EachStandsAtItsByte }
{}

/// A record is equally long in each form, and so is a segment.
pub fn equally_long()
    // promise: bytes_are_those_of_the_layout
    ensures { EquallyLong }
{}

/// A plain segment is what a segment was before there were checked ones.
pub fn plain_is_as_before()
    // promise: bytes_are_those_of_the_layout
    ensures { PlainIsAsBefore }
{}

/// After one byte of a checked record was changed, it is the record of no row.
pub fn changed_byte_is_noticed()
    // promise: damage_is_noticed_and_named
    ensures { ChangedByteIsNoticed }
{}

/// Bytes that began with a checked record begin with no record after one of its bytes was changed,
/// unless the record's length depends on that byte.
pub fn changed_record_is_none()
    // promise: damage_is_noticed_and_named
    ensures { ChangedRecordIsNone }
{}
