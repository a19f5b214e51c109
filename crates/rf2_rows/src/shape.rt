//! Which columns the lines of a file have, and how many.

ghost use Rattle.std.specs.Prelude.{◌≡◌};
ghost use Rattle.rf2_rows.specs.File.{shape_with};

use rf2_values::Kind;

/// The columns of a line: those of a kind, and after them further ones of any meaning.
#[derive(Clone, Copy, Debug, PartialEq, Eq)]
pub struct Shape {
    /// The kind of the rows that the lines spell.
    pub kind: Kind,
    /// How many further columns a line of a member has. Lines of other kinds have none, whatever
    /// this number is.
    pub further: usize,
}

impl Shape {
    /// The shape of lines without further columns.
    pub fn of(kind: Kind) -> Shape
        ensures { result ≡ shape_with kind 0 }
    {
        Shape { kind, further: 0 }
    }
}
