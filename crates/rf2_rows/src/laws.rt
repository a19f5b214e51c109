//! Laws of the definitions, each the contract of a function that does nothing.

ghost use Rattle.rf2_rows.specs.Laws.{SpellsOneRow, CanonicalSpells, OneFaultOfLine, RowHasNoFault};
ghost use Rattle.rf2_rows.specs.Laws.{RowOrFault, MemberKeepsItsBytes};
ghost use Rattle.rf2_rows.specs.Laws.{OneList, OneFaultOfFile, ReleaseFileHasNoFault, FileOrFault};
ghost use Rattle.rf2_rows.specs.Laws.{BytesAreTheirLines, LinesAreFound};

/// A text spells at most one row of a kind.
pub fn spells_one_row()
    // promise: a_release_file_is_read_exactly
    ensures { SpellsOneRow }
{}

/// The canonical spelling of a row spells it.
pub fn canonical_spells()
    // promise: a_release_file_is_read_exactly
    ensures { CanonicalSpells }
{}

/// The line of a member of a reference set ends with its further columns, unchanged.
pub fn member_keeps_its_bytes()
    // promise: a_release_file_is_read_exactly
    ensures { MemberKeepsItsBytes }
{}

/// A line has at most one fault.
pub fn one_fault_of_line()
    // promise: a_release_file_is_read_exactly
    ensures { OneFaultOfLine }
{}

/// A line that spells a row of the shape has no fault.
pub fn row_has_no_fault()
    // promise: a_release_file_is_read_exactly
    ensures { RowHasNoFault }
{}

/// Each line spells a row of the shape or has a fault.
pub fn row_or_fault()
    // promise: a_release_file_is_read_exactly
    ensures { RowOrFault }
{}

/// The bytes of a file are those of at most one list of rows.
pub fn one_list()
    // promise: a_release_file_is_read_exactly
    ensures { OneList }
{}

/// A file has at most one first faulty line, with one fault.
pub fn one_fault_of_file()
    // promise: a_release_file_is_read_exactly
    ensures { OneFaultOfFile }
{}

/// A release file has no fault.
pub fn release_file_has_no_fault()
    // promise: a_release_file_is_read_exactly
    ensures { ReleaseFileHasNoFault }
{}

/// Each file is a release file of the kind or has a fault.
pub fn file_or_fault()
    // promise: a_release_file_is_read_exactly
    ensures { FileOrFault }
{}

/// Any bytes are their lines in order, each with a line end, which the last one may lack.
pub fn bytes_are_their_lines()
    // promise: a_release_file_is_read_exactly
    ensures { BytesAreTheirLines }
{}

/// Bytes have these lines exactly if they are these texts, each with a line end.
pub fn lines_are_found()
    // promise: a_release_file_is_read_exactly
    ensures { LinesAreFound }
{}
