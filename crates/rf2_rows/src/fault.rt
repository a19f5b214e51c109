//! Why a line or a file couldn't be read.

ghost use Rattle.std.specs.Prelude.{◌≡◌};
ghost use Rattle.rf2_rows.specs.declared.fault.RowFault.TheVariants.{OutOfMemory, Line};
ghost use Rattle.rf2_rows.specs.declared.fault.FileFault.TheVariants as filefault;

use std::alloc::{AllocError, AllocFailed};
use thiserror::Error;

/// What is wrong with a line: its first fault. The length, UTF-8, the header (of the first line)
/// and the number of columns are checked first, in this order; then the columns from the left, each
/// of which has its own fault.
#[derive(Clone, Copy, Debug, PartialEq, Eq, Error)]
pub enum LineFault {
    /// The line is too long, not counting its end.
    #[error("the line is over 65,535 bytes")]
    LineLength,
    #[error("the line isn't UTF-8")]
    NotUtf8,
    /// Only for a file's first line, or for a file without lines.
    #[error("the first line isn't the column names")]
    Header,
    #[error("another number of columns")]
    Columns,
    /// No SCTID: other characters, a leading zero, too few or too many digits, or a wrong check
    /// digit.
    #[error("the id isn't an SCTID")]
    Id,
    /// An SCTID whose partition isn't that of the file's kind.
    #[error("the id is of another kind")]
    Partition,
    /// Not eight digits of a year from 1000 on, a month from 1 to 12 and a day from 1 to 31.
    #[error("the effective time isn't a date")]
    Time,
    #[error("the flag is neither 0 nor 1")]
    Active,
    /// No SCTID, or one of a partition that isn't allowed in the column.
    #[error("a reference isn't an SCTID that may stand there")]
    Reference,
    /// In the column `relationshipGroup`.
    #[error("the number isn't one of 32 bits")]
    Number,
    /// In the column `id` of a file of a reference set, whatever its pattern.
    #[error("the member id isn't a UUID of 36 bytes")]
    MemberId,
    /// In the columns `languageCode`, `term` and `value`. Also for a text with an LF, here or in a
    /// further column of a member, which is only possible in a line that is parsed by itself.
    #[error("the text is empty")]
    EmptyText,
}

/// Why a line couldn't be read as a row: memory ran out, or the line is faulty.
#[derive(Clone, Copy, Debug, PartialEq, Eq, Error)]
pub enum RowFault {
    #[error("out of memory")]
    OutOfMemory,
    #[error(transparent)]
    Line(LineFault),
}

impl From<LineFault> for RowFault {
    ghost from_gives = { λ f e. e ≡ Line f };

    fn from(fault: LineFault) -> RowFault {
        RowFault::Line(fault)
    }
}

impl From<AllocError> for RowFault {
    ghost from_gives = { λ _ e. e ≡ OutOfMemory };

    fn from(_e: AllocError) -> RowFault {
        RowFault::OutOfMemory
    }
}

/// Why a file couldn't be read as rows: memory ran out, or a line is faulty.
#[derive(Clone, Copy, Debug, PartialEq, Eq, Error)]
pub enum FileFault {
    #[error("out of memory")]
    OutOfMemory,
    #[error("line {line}: {fault}")]
    Row {
        /// The first faulty line, counted from 1. Line 1 has the column names.
        line: usize,
        fault: LineFault,
    },
}

impl<T: Drop> From<AllocFailed<T>> for FileFault {
    ghost from_gives = { λ _ e. e ≡ filefault.OutOfMemory };

    fn from(_e: AllocFailed<T>) -> FileFault {
        FileFault::OutOfMemory
    }
}

impl RowFault {
    ghost use Rattle.std.specs.Prelude.{◌≡◌};
    ghost use Rattle.rf2_rows.specs.Private.{at_line_of};

    /// The fault of a file in which this line is the faulty one.
    pub(crate) fn at_line(self, line: usize) -> FileFault
        ensures { result ≡ at_line_of line self }
    {
        match self {
            RowFault::OutOfMemory => FileFault::OutOfMemory,
            RowFault::Line(fault) => FileFault::Row { line, fault },
        }
    }
}
