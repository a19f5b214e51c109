//! The words of a line.

/// The first word of a text, and the text after it.
pub fn two_words(text: &str) -> (&str, &str) {
    match text.split_once(' ') {
        Some(words) => words,
        None => (text, ""),
    }
}
