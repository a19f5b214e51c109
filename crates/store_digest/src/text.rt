//! The text that is hashed: a line for each row.

ghost use Rattle.std.specs.Prelude.{◌≡◌, ◌++◌, ◌∷◌, [], OnOk};
ghost use Rattle.line_commands.specs.Spelling.{letter};
ghost use Rattle.store_digest.specs.Digest.{text_line};

use rf2_rows::{Kind, Row, write_row};
use std::alloc::AllocError;

/// The letter of a kind.
fn letter(kind: Kind) -> u8
    ensures { result ∷ [] ≡ letter kind }
{
    match kind {
        Kind::Concept => b'C',
        Kind::Description => b'D',
        Kind::Relationship => b'R',
        Kind::Association => b'A',
        Kind::Concrete => b'V',
        Kind::Member => b'M',
    }
}

/// Appends the line of a row.
pub(crate) fn put_line(row: &Row, text: &mut Vec<u8>) -> Result<(), AllocError>
    ensures { OnOk result (text.new.items ≡ text.old.items ++ text_line row.now) }
{
    text.push(letter(row.kind()))?;
    text.push(b' ')?;
    write_row(row, text)?;
    text.push(b'\n')?;
    Ok(())
}
