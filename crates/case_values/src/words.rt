//! The words of questions.

use case_files::NoAnswer;
use rf2_rows::{EffectiveTime, Kind, Sctid, Shape};
use std::str::FromStr;

/// Splits a text into its first word and the words after it.
pub fn first_word(words: &str) -> Result<(&str, &str), NoAnswer> {
    words.split_once(' ').ok_or(NoAnswer::NoQuestion)
}

/// Splits a text into its first two words and the words after them.
pub fn three_words(words: &str) -> Result<(&str, &str, &str), NoAnswer> {
    let (first, words) = first_word(words)?;
    let (second, rest) = first_word(words)?;
    Ok((first, second, rest))
}

/// Reads a number.
pub fn number<T: FromStr>(word: &str) -> Result<T, NoAnswer>
where
    T::Err: Drop,
{
    word.parse::<T>().ok().ok_or(NoAnswer::NoQuestion)
}

/// Reads the name of a kind.
pub fn kind_of(word: &str) -> Result<Kind, NoAnswer> {
    match word {
        "concept" => Ok(Kind::Concept),
        "description" => Ok(Kind::Description),
        "relationship" => Ok(Kind::Relationship),
        "association" => Ok(Kind::Association),
        "concrete" => Ok(Kind::Concrete),
        "member" => Ok(Kind::Member),
        _ => Err(NoAnswer::NoQuestion),
    }
}

/// Reads a shape: the name of a kind and, after a plus sign, the number of a member's further
/// columns.
pub fn shape_of(word: &str) -> Result<Shape, NoAnswer> {
    match word.split_once('+') {
        Some((kind, further)) => Ok(Shape {
            kind: kind_of(kind)?,
            further: number(further)?,
        }),
        None => Ok(Shape::of(kind_of(word)?)),
    }
}

/// Reads an identifier.
pub fn sctid_of(word: &str) -> Result<Sctid, NoAnswer> {
    Sctid::of(number(word)?).ok_or(NoAnswer::NoQuestion)
}

/// Reads a day.
pub fn day_of(word: &str) -> Result<EffectiveTime, NoAnswer> {
    EffectiveTime::of(number(word)?).ok_or(NoAnswer::NoQuestion)
}

/// Reads the number or the component that the results have to exceed, or none for `-`.
pub fn above<T: FromStr>(word: &str) -> Result<Option<T>, NoAnswer>
where
    T::Err: Drop,
{
    match word {
        "-" => Ok(None),
        _ => Ok(Some(number(word)?)),
    }
}

/// Splits a question into its words and the prefix in quotes after them, which is empty if there is
/// none.
pub fn split_prefix(words: &str) -> Result<(&str, &str), NoAnswer> {
    match words.split_once(" \"") {
        Some((words, prefix)) => {
            let prefix = prefix.strip_suffix('"').ok_or(NoAnswer::NoQuestion)?;
            Ok((words, prefix))
        }
        None => Ok((words, "")),
    }
}
