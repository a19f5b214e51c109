//! Names of releases.

ghost use Rattle.std.specs.Prelude.{◌≡◌, ◌↔◌, ◌⊎◌, IsTrue, MatchOption};
ghost use Rattle.std.specs.List.{All};
ghost use Rattle.std.specs.Char.{IsAsciiAlphanumeric};
ghost use Rattle.line_commands.specs.Names.{IsName, IsNamePart, IsNameByte};

/// Whether the bytes are ASCII letters, digits, `_`, `-` and `.`.
fn is_plain(part: &[u8]) -> bool
    ensures { IsTrue result ↔ All IsNameByte part.now }
{
    part.iter().all(|b| b.is_ascii_alphanumeric() || *b == b'_' || *b == b'-' || *b == b'.')
}

/// Whether a text is allowed between the slashes of a name.
fn is_name_part(part: &[u8]) -> bool
    ensures { IsTrue result ↔ IsNamePart part.now }
{
    if part == b".".as_slice() {
        return false;
    }
    if part == b"..".as_slice() {
        return false;
    }
    !part.is_empty() && is_plain(part)
}

/// Whether the text is a name of a release.
fn is_name(text: &[u8]) -> bool
    ensures { IsTrue result ↔ IsName text.now }
{
    if text.len() > 1024 {
        return false;
    }
    text.split(|b| *b == b'/').all(|part| is_name_part(part))
}

/// The text as the name of a release, if it is one.
pub(crate) fn release_name(text: &[u8]) -> Option<&str>
    ensures { MatchOption result (IsName text.now → ⊥)
        (λ name. IsName name.now × (name.now ≡ text.now)) }
{
    if !is_name(text) {
        return None;
    }
    match str::from_utf8(text) {
        Ok(name) => Some(name),
        Err(_) => None,
    }
}
