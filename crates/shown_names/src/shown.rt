//! Shows a name, with escapes for what a terminal or a reader of lines would interpret.

ghost use Rattle.std.specs.Prelude.{◌≡◌, ◌||◌, ◌==◌, flat_map, chars, encode_utf8_all};
ghost use Rattle.std.specs.Fmt.{WritesOnOk};
ghost use Rattle.std.specs.Char.Escape.{escape_default, escape_ascii};
ghost use Rattle.shown_names.specs.Shown.{is_escaped, shown_character};

use std::fmt::{self, Display, Formatter};

/// The name of a file or a folder, or a path, given by its bytes. Whatever they are, it is shown on
/// one line, and no two names are shown alike.
#[derive(Clone, Copy)]
pub struct Shown<'a>(pub &'a [u8]);

// promise: what_is_passed_over_is_told
impl Display for Shown<'_> {
    ghost use Rattle.std.specs.Prelude.{Some, encode_utf8_all};
    ghost use Rattle.shown_names.specs.Shown.{shown};

    ghost output = { λ name. Some (encode_utf8_all (shown name.0.now)) };

    fn fmt<W: fmt::Write>(&self, f: &mut Formatter<W>) -> fmt::Result {
        match str::from_utf8(self.0) {
            Ok(text) => write_text(text, f),
            Err(_) => write_bytes(self.0, f),
        }
    }
}

/// Whether a character is escaped.
fn is_escaped(c: char) -> bool
    ensures { result ≡ is_escaped c }
{
    c.is_control()
        || ('\u{2028}'..='\u{202e}').contains(&c)
        || ('\u{2066}'..='\u{2069}').contains(&c)
        || c == '\\'
}

/// Writes a name that is UTF-8.
fn write_text<W: fmt::Write>(text: &str, f: &mut Formatter<W>) -> fmt::Result
    ensures { WritesOnOk W.write_str_gives f.old result
        (encode_utf8_all (flat_map shown_character (chars text.now))) f.new }
{
    let mut rest = text.chars();
    'characters: while let Some(c) = rest.next() {
        write_character(c, f)?;
    }
    Ok(())
}

/// Writes a character, or its escape.
fn write_character<W: fmt::Write>(c: char, f: &mut Formatter<W>) -> fmt::Result
    ensures { WritesOnOk W.write_str_gives f.old result
        (encode_utf8_all (shown_character c)) f.new }
{
    if is_escaped(c) {
        write_escape(c, f)
    } else {
        f.write_char(c)
    }
}

/// Writes the escape of a character.
fn write_escape<W: fmt::Write>(c: char, f: &mut Formatter<W>) -> fmt::Result
    ensures { WritesOnOk W.write_str_gives f.old result (encode_utf8_all (escape_default c)) f.new }
{
    let mut rest = c.escape_default();
    'escape: while let Some(escaped) = rest.next() {
        f.write_char(escaped)?;
    }
    Ok(())
}

/// Writes a name that isn't UTF-8: printable ASCII unchanged, and each other byte as an escape with
/// its number.
fn write_bytes<W: fmt::Write>(bytes: &[u8], f: &mut Formatter<W>) -> fmt::Result
    ensures { WritesOnOk W.write_str_gives f.old result
        (encode_utf8_all (flat_map escape_ascii bytes.now)) f.new }
{
    for byte in bytes {
        write_byte(*byte, f)?;
    }
    Ok(())
}

/// Writes a byte, or its escape.
fn write_byte<W: fmt::Write>(byte: u8, f: &mut Formatter<W>) -> fmt::Result
    ensures { WritesOnOk W.write_str_gives f.old result (encode_utf8_all (escape_ascii byte)) f.new }
{
    let mut rest = byte.escape_ascii();
    'escape: while let Some(escaped) = rest.next() {
        f.write_char(char::from(escaped))?;
    }
    Ok(())
}
