//! Reads rows from files.

ghost use Rattle.std.specs.Prelude.{◌≡◌, ℕ, ◌≤◌, ◌⊎◌, List, length, MatchResult, MatchOption};
ghost use Rattle.std.specs.Prelude.{IfOk, IfErr};
ghost use Rattle.rf2_values.specs.Row.{RowValue, line_limit};
ghost use Rattle.rf2_rows.specs.declared.fault.LineFault.{LineFault};
ghost use Rattle.rf2_rows.specs.declared.fault.FileFault.TheVariants as filefault;
ghost use Rattle.rf2_rows.specs.Line.{header};
ghost use Rattle.rf2_rows.specs.File.{without_mark as bytes_without_mark, lines_in, IsReleaseFile};
ghost use Rattle.rf2_rows.specs.File.{IsHeader, SpellsEach};
ghost use Rattle.rf2_rows.specs.File.{IsFirstLineFault, IsFaultOfRows, IsFaultOfFile, IsFaultThat};

use crate::fault::{FileFault, LineFault};
use crate::line::read_line;
use crate::shape::Shape;
use bstr::{ByteSlice, Lines};
use rf2_values::{Further, Kind, LINE_LIMIT, Row};
use std::alloc::Global;

/// The column names of a concept file.
const CONCEPT_HEADER: &[u8] = b"id\teffectiveTime\tactive\tmoduleId\tdefinitionStatusId";

/// The column names of a description file.
const DESCRIPTION_HEADER: &[u8] =
    b"id\teffectiveTime\tactive\tmoduleId\tconceptId\tlanguageCode\ttypeId\tterm\t\
      caseSignificanceId";

/// The column names of a relationship file.
const RELATIONSHIP_HEADER: &[u8] =
    b"id\teffectiveTime\tactive\tmoduleId\tsourceId\tdestinationId\trelationshipGroup\ttypeId\t\
      characteristicTypeId\tmodifierId";

/// The column names of a file of members of association reference sets.
const ASSOCIATION_HEADER: &[u8] =
    b"id\teffectiveTime\tactive\tmoduleId\trefsetId\treferencedComponentId\ttargetComponentId";

/// The column names of a file of relationships with concrete values.
const CONCRETE_HEADER: &[u8] =
    b"id\teffectiveTime\tactive\tmoduleId\tsourceId\tvalue\trelationshipGroup\ttypeId\t\
      characteristicTypeId\tmodifierId";

/// The column names with which each file of members of reference sets begins.
const MEMBER_HEADER: &[u8] =
    b"id\teffectiveTime\tactive\tmoduleId\trefsetId\treferencedComponentId";

/// The first line of a file of the kind, without its end: the column names, joined by TAB. In a
/// file of members of reference sets any further names may follow.
pub fn column_names(kind: Kind) -> &'static [u8]
    // promise: a_release_file_is_read_exactly
    ensures { result.now ≡ header kind }
{
    match kind {
        Kind::Concept => CONCEPT_HEADER,
        Kind::Description => DESCRIPTION_HEADER,
        Kind::Relationship => RELATIONSHIP_HEADER,
        Kind::Association => ASSOCIATION_HEADER,
        Kind::Concrete => CONCRETE_HEADER,
        Kind::Member => MEMBER_HEADER,
    }
}

/// The bytes without the byte order mark at their beginning, if there is one. A second one isn't
/// removed.
fn without_mark(bytes: &[u8]) -> &[u8]
    ensures { result.now ≡ bytes_without_mark bytes.now }
{
    match bytes {
        [0xef, 0xbb, 0xbf, rest @ ..] => rest,
        _ => bytes,
    }
}

/// How many further columns a file of the kind has with these column names, which are no longer
/// than a line may be; none if they aren't the column names of such a file.
fn further_names(kind: Kind, names: &[u8]) -> Option<usize>
    requires { length names.now ≤ line_limit }
    ensures { MatchOption result ((n : ℕ) → ¬ (IsHeader kind n names.now))
        (λ n. IsHeader kind n names.now) }
{
    let others = names.strip_prefix(column_names(kind))?;
    if others.is_empty() {
        return Some(0);
    }
    match kind {
        Kind::Member => Further::count(others),
        _ => None,
    }
}

/// The shape of the rows that follow a first line.
fn read_first_line(kind: Kind, text: &[u8]) -> Result<Shape, LineFault>
    ensures { MatchResult result
        (λ shape. (shape.kind ≡ kind) × IsHeader kind shape.further text.now)
        (IsFirstLineFault kind text.now) }
{
    if text.len() > LINE_LIMIT {
        return Err(LineFault::LineLength);
    }
    if !text.is_utf8() {
        return Err(LineFault::NotUtf8);
    }
    match further_names(kind, text) {
        Some(further) => Ok(Shape { kind, further }),
        None => Err(LineFault::Header),
    }
}

/// Reads the rows of the lines after the first.
fn read_rows(alloc: Global, shape: Shape, lines: Lines<'_>) -> Result<Vec<Row>, FileFault>
    ensures { MatchResult result
        (λ rows. SpellsEach shape rows.items lines.entry)
        (IsFaultThat (IsFaultOfRows shape lines.entry)) }
{
    let mut rows = Vec::new(alloc);
    let mut room = Vec::new(alloc);
    for line in lines {
        match read_line(alloc, &mut room, shape, line) {
            Ok(row) => rows.push(row)?,
            Err(fault) => return Err(fault.at_line(rows.len() + 2)),
        }
    }
    Ok(rows)
}

/// Reads the rows of a release file. `read_file` is the same function with all clauses, which
/// follow from these two.
fn read(alloc: Global, kind: Kind, bytes: &[u8]) -> Result<Vec<Row>, FileFault>
    ensures found { IfOk result (λ rows. IsReleaseFile kind rows.items bytes.now) }
    ensures fault { IfErr result (IsFaultThat (IsFaultOfFile kind bytes.now)) }
{
    let mut lines = without_mark(bytes).lines();
    let Some(first) = lines.next() else {
        return Err(FileFault::Row {
            line: 1,
            fault: LineFault::Header,
        });
    };
    match read_first_line(kind, first) {
        Ok(shape) => read_rows(alloc, shape, lines),
        Err(fault) => Err(FileFault::Row { line: 1, fault }),
    }
}

/// Reads a whole release file of a kind: an optional byte order mark, the column names, and one row
/// on each line, with as many columns as there are names. Lines end with CR LF or LF; the last line
/// may lack its end.
pub fn read_file(alloc: Global, kind: Kind, bytes: &[u8]) -> Result<Vec<Row>, FileFault>
    // The rows that are read are those in the file.
    // promise: a_release_file_is_read_exactly
    ensures found { IfOk result (λ rows. IsReleaseFile kind rows.items bytes.now) }
    // A file with these rows is read, unless memory runs out.
    // promise: a_release_file_is_read_exactly
    ensures only { (rows : List RowValue) → IsReleaseFile kind rows bytes.now
        → MatchResult result (λ v. v.items ≡ rows) (λ e. e ≡ filefault.OutOfMemory) }
    // A fault says which line is faulty, and how.
    // promise: a_refusal_names_its_cause
    ensures fault { IfErr result (IsFaultThat (IsFaultOfFile kind bytes.now)) }
    // A file with this fault is refused with it, unless memory runs out.
    // promise: a_refusal_names_its_cause
    ensures refused { (n : ℕ) (f : LineFault) → IsFaultOfFile kind bytes.now n f
        → MatchResult result (λ v. ⊥) (λ e. (e ≡ filefault.OutOfMemory) ⊎ (e ≡ filefault.Row n f)) }
{
    read(alloc, kind, bytes)
}
