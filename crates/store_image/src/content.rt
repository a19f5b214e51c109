//! The content block of a directory.

ghost use Rattle.directory.specs.Content.{Lists};

use directory::Directory;

/// The directory, encoded as a content block.
pub(crate) fn content_of(directory: &Directory) -> [u8; 4096]
    ensures { Lists result directory.now }
{
    let mut content = [0; 4096];
    directory.encode(&mut content);
    content
}
