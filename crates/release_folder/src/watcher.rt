//! What can be reported while a release is read.

/// Receives reports of what is done with each file of a release. Names and paths are in the form
/// shown to people: on one line, with control characters escaped.
pub trait Watcher {
    /// The file is a release file, and is read next.
    fn reads(&mut self, name: &str);

    /// The file isn't read. It is named by its path below the release's folder. A path that ends
    /// with a slash is that of a folder whose contents aren't known.
    fn passes_over(&mut self, path: &str);
}

/// A watcher that does nothing.
#[derive(Clone, Copy)]
pub struct Unwatched;

impl Watcher for Unwatched {
    fn reads(&mut self, _name: &str) {}

    fn passes_over(&mut self, _path: &str) {}
}
