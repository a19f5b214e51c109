//! The rows of a package's Snapshot files, which are read in pieces.

ghost use Rattle.std.specs.Prelude.{◌≡◌, []};

use crate::host::Host;
use history_model::{GhostRows, StampedRow};
use line_server::SourceFault;
use release_folder::SnapshotFile;
use rf2_rows::{FileFault, Kind, Row, read_file};
use shrinking_list::ShrinkingList;
use snapshot_check::{Package, PackageFault};
use std::alloc::{AllocError, Global};
use std::io::Write;

/// How many bytes of a file are read at a time.
const PIECE: u64 = 1_048_576;

/// How long the lines that are left may be without an end among them, so that the row reader sees
/// that one is too long.
const LONGEST: usize = 131_072;

/// The rows of Snapshot files: one file after the other, and those of each piece in the order of
/// their ids.
#[derive(Drop)]
pub(crate) struct PackageRows<'a, H: Host, E: Write> {
    host: &'a H,
    faults: &'a mut E,
    files: &'a [SnapshotFile],
    /// The position of the file that is read, and of the byte from which it is read on.
    file: usize,
    from: u64,
    /// The first line of that file, with its end.
    names: Vec<u8>,
    /// The number of the line that comes next.
    line: usize,
    /// The beginning of that line.
    begun: Vec<u8>,
    /// The rows that were read and not given yet.
    rows: ShrinkingList<Row>,
    given: GhostRows,
    /// How many rows may be given at most.
    left: u64,
}

impl<'a, H: Host, E: Write> PackageRows<'a, H, E> {
    /// The rows of these files, of which none was given.
    pub(crate) fn new(
        alloc: Global,
        host: &'a H,
        files: &'a [SnapshotFile],
        faults: &'a mut E,
    ) -> PackageRows<'a, H, E>
        ensures { result.given ≡ [] }
    {
        PackageRows {
            host,
            faults,
            files,
            file: 0,
            from: 0,
            names: Vec::new(alloc),
            line: 1,
            begun: Vec::new(alloc),
            rows: ShrinkingList::new(Vec::new(alloc)),
            given: GhostRows::new(alloc),
            left: u64::MAX,
        }
    }

    /// Reads the next piece. Returns whether there was one.
    fn read_piece(&mut self, alloc: Global) -> Result<bool, PackageFault>
        ensures given { self.new.given ≡ self.old.given }
        ensures left { self.new.left ≡ self.old.left }
    {
        let files = self.files;
        let Some(file) = files.get(self.file) else {
            return Ok(false);
        };
        self.add_bytes(alloc, file)?;
        let ended = self.from >= file.bytes;
        let end = whole_lines(&self.begun, ended);
        if end > 0 || (ended && self.line == 1) {
            let text = self.cut(alloc, end)?;
            self.read_lines(alloc, file.kind, &text)?;
        }
        if ended {
            self.file = self.file.saturating_add(1);
            self.from = 0;
            self.line = 1;
        }
        Ok(true)
    }

    /// Adds the next bytes of the file to the beginning of a line.
    fn add_bytes(&mut self, alloc: Global, file: &SnapshotFile) -> Result<(), PackageFault>
        ensures given { self.new.given ≡ self.old.given }
        ensures left { self.new.left ≡ self.old.left }
    {
        let read = match self.host.part(alloc, file, self.from, PIECE, self.faults) {
            Ok(read) => read,
            Err(SourceFault::OutOfMemory) => return Err(PackageFault::OutOfMemory),
            Err(SourceFault::NoFolder) => return Err(PackageFault::NoFolder),
        };
        self.from = self.from.saturating_add(read.len() as u64);
        self.begun.extend_from_slice(&read)?;
        Ok(())
    }

    /// Takes the first bytes of those that were read and aren't lines yet.
    fn cut(&mut self, alloc: Global, end: usize) -> Result<Vec<u8>, AllocError>
        ensures given { self.new.given ≡ self.old.given }
        ensures left { self.new.left ≡ self.old.left }
    {
        let end = end.min(self.begun.len());
        let text = Vec::from_slice(alloc, &self.begun[..end])?;
        let rest = Vec::from_slice(alloc, &self.begun[end..])?;
        self.begun = rest;
        Ok(text)
    }

    /// Reads whole lines of the file. The row reader gets the column names before them, and of the
    /// first lines with them.
    fn read_lines(&mut self, alloc: Global, kind: Kind, text: &[u8]) -> Result<(), PackageFault>
        ensures given { self.new.given ≡ self.old.given }
        ensures left { self.new.left ≡ self.old.left }
    {
        let before = self.line.saturating_sub(2);
        let rows = if self.line == 1 {
            self.names = Vec::from_slice(alloc, first_line(text))?;
            read_file(alloc, kind, text)
        } else {
            let mut piece = Vec::from_slice(alloc, &self.names)?;
            piece.extend_from_slice(text)?;
            read_file(alloc, kind, &piece)
        };
        let lines = text.iter().filter(|byte| **byte == b'\n').count();
        self.line = self.line.saturating_add(lines);
        match rows {
            Ok(rows) => {
                self.rows = in_order_of_ids(rows);
                Ok(())
            }
            Err(FileFault::OutOfMemory) => Err(PackageFault::OutOfMemory),
            Err(FileFault::Row { line, fault }) => Err(PackageFault::Row {
                file: self.file.saturating_add(1),
                line: line.saturating_add(before),
                fault,
            }),
        }
    }
}

/// Rows of one kind in the order of their ids, in which a store finds them faster.
fn in_order_of_ids(rows: Vec<Row>) -> ShrinkingList<Row> {
    let mut rows = rows;
    rows.sort_unstable_by(|a, b| a.id.cmp(&b.id));
    ShrinkingList::new(rows)
}

/// The first line of a text, with its end.
fn first_line(text: &[u8]) -> &[u8] {
    text.split_inclusive(|byte| *byte == b'\n')
        .next()
        .unwrap_or(text)
}

/// How many bytes whole lines take: all of them at the end of the file, or if a line is too long.
fn whole_lines(bytes: &[u8], ended: bool) -> usize {
    if ended {
        return bytes.len();
    }
    match bytes.iter().rposition(|byte| *byte == b'\n') {
        Some(last) => last.saturating_add(1),
        None if bytes.len() > LONGEST => bytes.len(),
        None => 0,
    }
}

impl<H: Host, E: Write> Package for PackageRows<'_, H, E> {
    ghost use Rattle.std.specs.Prelude.{⊤, map};

    ghost given = { λ s. map (λ stamped. stamped.row) s.given };

    ghost left = { λ s. s.left };

    ghost faulty = { λ s fault. ⊤ };

    fn next(&mut self, alloc: Global) -> Result<Option<Row>, PackageFault> {
        let Some(left) = self.left.checked_sub(1) else {
            return Err(PackageFault::OutOfMemory);
        };
        for _ in 0..u64::MAX {
            if let Some(row) = self.rows.next() {
                let stamped = StampedRow { row, import: 0 };
                self.given.push(&stamped)?;
                self.left = left;
                return Ok(Some(stamped.row));
            }
            if !self.read_piece(alloc)? {
                return Ok(None);
            }
        }
        Err(PackageFault::OutOfMemory)
    }
}
