//! Parses single arguments: each function returns the one value that a text spells, or none.

ghost use Rattle.std.specs.Prelude.{◌≡◌, ◌≢◌, ◌≤◌, ◌<◌, ◌^◌, ℕ, Option, MatchOption, decimal};
ghost use Rattle.std.specs.Prelude.{length, Some, []};
ghost use Rattle.std.specs.Str.{IsUtf8};
ghost use Rattle.rf2_values.specs.Member.{SpellsMember};
ghost use Rattle.rf2_values.specs.Row.{IsOfClass, IsComponent, IsIdOf, SpellsId};
ghost use Rattle.rf2_values.specs.Time.{IsTime};
ghost use Rattle.line_commands.specs.Spelling.{letter, IsSubjectOf, Spells, IdOrNone, OfKind};
ghost use Rattle.line_commands.specs.Spelling.{OfComponents, KeyId, KeyDate};
ghost use Rattle.word_model.specs.Words.{words};
ghost use Rattle.rf2_values.specs.declared.key.Key.{Key};
ghost use Rattle.line_commands.specs.Requests.{sessions};

use crate::command::SESSIONS;
use rf2_values::{Class, EffectiveTime, Key, Kind, Member, Sctid, number};
use word_model::has_word;

/// A session's number.
pub(crate) fn session_number(text: &[u8]) -> Option<u16>
    ensures { MatchOption result ((n : ℕ) → n < sessions → text.now ≢ decimal n)
        (λ n. (n < sessions) × (text.now ≡ decimal n)) }
{
    match number::parse(text) {
        Some(number) if number < SESSIONS as u64 => u16::try_from(number).ok(),
        _ => None,
    }
}

/// The kind with this letter, and no other kind has it.
pub(crate) fn kind(text: &[u8]) -> Option<Kind>
    ensures { MatchOption result ((k : Kind) → text.now ≢ letter k)
        (λ k. (text.now ≡ letter k) × ((l : Kind) → text.now ≡ letter l → l ≡ k)) }
{
    match text {
        b"C" => Some(Kind::Concept),
        b"D" => Some(Kind::Description),
        b"R" => Some(Kind::Relationship),
        b"A" => Some(Kind::Association),
        b"V" => Some(Kind::Concrete),
        b"M" => Some(Kind::Member),
        _ => None,
    }
}

/// A number from 1 to `most`.
pub(crate) fn limit(text: &[u8], most: u32) -> Option<u32>
    ensures { MatchOption result ((n : ℕ) → 1 ≤ n → n ≤ most → text.now ≢ decimal n)
        (λ n. (1 ≤ n) × (n ≤ most) × (text.now ≡ decimal n)) }
{
    match number::parse(text) {
        Some(number) if number >= 1 && number <= u64::from(most) => u32::try_from(number).ok(),
        _ => None,
    }
}

/// A number from 0 to 2^32 - 1, without leading zeros: the number of an import, or how many imports
/// or rows. Whether there are as many is checked elsewhere.
pub(crate) fn any_number(text: &[u8]) -> Option<u32>
    ensures { MatchOption result ((n : ℕ) → n < 2 ^ 32 → text.now ≢ decimal n)
        (λ n. (n < 2 ^ 32) × (text.now ≡ decimal n)) }
{
    u32::try_from(number::parse(text)?).ok()
}

/// An SCTID of a class.
pub(crate) fn sctid_of(text: &[u8], class: Class) -> Option<Sctid>
    ensures { MatchOption result ((n : ℕ) → IsOfClass class n → text.now ≢ decimal n)
        (λ n. IsOfClass class n × (text.now ≡ decimal n)) }
{
    let id = Sctid::parse(text)?;
    if id.class() == Some(class) {
        Some(id)
    } else {
        None
    }
}

/// The identifier of a concept, a description or a relationship.
pub(crate) fn component(text: &[u8]) -> Option<Sctid>
    ensures { MatchOption result ((n : ℕ) → IsComponent n → text.now ≢ decimal n)
        (λ n. IsComponent n × (text.now ≡ decimal n)) }
{
    let id = Sctid::parse(text)?;
    if id.class().is_some() { Some(id) } else { None }
}

/// The id of a member of a reference set.
fn member(text: &[u8]) -> Option<u128>
    ensures { MatchOption result ((n : ℕ) → SpellsMember n text.now → ⊥)
        (λ n. (n < 2 ^ 128) × SpellsMember n text.now) }
{
    match Member::parse(text) {
        Some(member) => Some(member.value()),
        None => None,
    }
}

/// An identifier of a kind.
pub(crate) fn identifier(kind: Kind, text: &[u8]) -> Option<u128>
    ensures { MatchOption result ((n : ℕ) → IsIdOf kind n → SpellsId kind n text.now → ⊥)
        (λ n. IsIdOf kind n × SpellsId kind n text.now) }
{
    match kind {
        Kind::Concept => Some(u128::from(sctid_of(text, Class::Concept)?.value())),
        Kind::Description => Some(u128::from(sctid_of(text, Class::Description)?.value())),
        Kind::Relationship | Kind::Concrete => {
            Some(u128::from(sctid_of(text, Class::Relationship)?.value()))
        }
        Kind::Association | Kind::Member => member(text),
    }
}

/// The identifier of a component that a row of the kind can be about.
pub(crate) fn subject(kind: Kind, text: &[u8]) -> Option<Sctid>
    ensures { MatchOption result ((n : ℕ) → IsSubjectOf kind n → text.now ≢ decimal n)
        (λ n. IsSubjectOf kind n × (text.now ≡ decimal n)) }
{
    match kind {
        Kind::Concept => None,
        Kind::Description | Kind::Relationship | Kind::Concrete => sctid_of(text, Class::Concept),
        Kind::Association | Kind::Member => component(text),
    }
}

/// A date.
pub(crate) fn date(text: &[u8]) -> Option<EffectiveTime>
    ensures { MatchOption result ((t : ℕ) → IsTime t → text.now ≢ decimal t)
        (λ t. IsTime t × (text.now ≡ decimal t)) }
{
    match EffectiveTime::parse(text) {
        Some(date) => Some(date),
        None => None,
    }
}

/// The beginning of a term: a text in UTF-8 that isn't empty.
pub(crate) fn prefix(text: &[u8]) -> Option<&str>
    ensures { MatchOption result (1 ≤ length text.now → IsUtf8 text.now → ⊥)
        (λ p. (1 ≤ length p.now) × IsUtf8 p.now × (p.now ≡ text.now)) }
{
    if text.is_empty() {
        return None;
    }
    match str::from_utf8(text) {
        Ok(prefix) => Some(prefix),
        Err(_) => None,
    }
}

/// A text in UTF-8 that has a word.
pub(crate) fn text_of_words(text: &[u8]) -> Option<&str>
    ensures { MatchOption result (words text.now ≢ [] → IsUtf8 text.now → ⊥)
        (λ t. (words t.now ≢ []) × IsUtf8 t.now × (t.now ≡ text.now)) }
{
    match str::from_utf8(text) {
        Ok(text) if has_word(text) => Some(text),
        _ => None,
    }
}

/// The type of a relationship or a description, or `-` for any type.
pub(crate) fn type_of(text: &[u8]) -> Option<Option<Sctid>>
    ensures { MatchOption result
        ((o : Option ℕ) → Spells (IdOrNone (OfKind Kind.Concept) o) text.now → ⊥)
        (λ o. Spells (IdOrNone (OfKind Kind.Concept) o) text.now) }
{
    if text == b"-".as_slice() {
        return Some(None);
    }
    match sctid_of(text, Class::Concept) {
        Some(id) => Some(Some(id)),
        None => None,
    }
}

/// A key of a kind, spelled by its identifier and its date.
fn key(kind: Kind, id: &[u8], day: &[u8]) -> Option<Key>
    ensures { MatchOption result
        ((k : Key) → Spells (KeyId kind (Some k)) id.now → Spells (KeyDate (Some k)) day.now → ⊥)
        (λ k. Spells (KeyId kind (Some k)) id.now × Spells (KeyDate (Some k)) day.now) }
{
    let id = identifier(kind, id)?;
    let time = date(day)?;
    Some(Key { id, time, kind })
}

/// A key of a kind, or `-` twice for none.
pub(crate) fn key_after(kind: Kind, id: &[u8], day: &[u8]) -> Option<Option<Key>>
    ensures { MatchOption result
        ((o : Option Key) → Spells (KeyId kind o) id.now → Spells (KeyDate o) day.now → ⊥)
        (λ o. Spells (KeyId kind o) id.now × Spells (KeyDate o) day.now) }
{
    if id == b"-".as_slice() && day == b"-".as_slice() {
        return Some(None);
    }
    match key(kind, id, day) {
        Some(key) => Some(Some(key)),
        None => None,
    }
}

/// An identifier of a kind, or `-` for none.
pub(crate) fn after(kind: Kind, text: &[u8]) -> Option<Option<u128>>
    ensures { MatchOption result
        ((o : Option ℕ) → Spells (IdOrNone (OfKind kind) o) text.now → ⊥)
        (λ o. Spells (IdOrNone (OfKind kind) o) text.now) }
{
    if text == b"-".as_slice() {
        return Some(None);
    }
    match identifier(kind, text) {
        Some(id) => Some(Some(id)),
        None => None,
    }
}

/// The identifier of a component, or `-` for none.
pub(crate) fn component_after(text: &[u8]) -> Option<Option<u64>>
    ensures { MatchOption result
        ((o : Option ℕ) → Spells (IdOrNone OfComponents o) text.now → ⊥)
        (λ o. Spells (IdOrNone OfComponents o) text.now) }
{
    if text == b"-".as_slice() {
        return Some(None);
    }
    match component(text) {
        Some(id) => Some(Some(id.value())),
        None => None,
    }
}
