//! Identifiers of members of reference sets, as the column `id` of a reference set file has them.

ghost use Rattle.std.specs.Prelude.{◌≡◌, ℕ, ◌<◌, ◌^◌, ◌++◌, ◌↔◌, Some, IfSome, IsTrue, OnOk, OnErr};
ghost use Rattle.std.specs.List.{All};
ghost use Rattle.rf2_values.specs.Member.{SpellsMember, IsMemberByte, member_text};

use std::alloc::AllocError;
use std::marker::Model;
use uuid::Uuid;

/// The id of a member of a reference set: a UUID, which clauses see as a number.
#[derive(Clone, Copy, Debug, PartialEq, Eq)]
pub struct Member {
    value: u128,
}

impl Model for Member {
    ghost Value = { ℕ };

    ghost view = { λ m. m.value };

    ghost inverse = { λ n. record { value = n } };
}

/// Whether the bytes are hexadecimal digits and hyphens.
fn is_plain(text: &[u8]) -> bool
    ensures { IsTrue result ↔ All IsMemberByte text.now }
{
    text.iter().all(|b| b.is_ascii_hexdigit() || *b == b'-')
}

impl Member {
    /// The member id with this number, whose highest byte comes first in the text.
    pub fn of(value: u128) -> Member
        ensures { result ≡ value }
    {
        Member { value }
    }

    /// The member id that the text spells: 36 bytes, in either case.
    pub fn parse(text: &[u8]) -> Option<Member>
        // promise: ids_dates_and_texts_are_checked
        ensures found { IfSome result (λ n. (n < 2 ^ 128) × SpellsMember n text.now) }
        // promise: ids_dates_and_texts_are_checked
        ensures only { (n : ℕ) → SpellsMember n text.now → result ≡ Some n }
    {
        if text.len() != 36 || !is_plain(text) {
            return None;
        }
        match Uuid::try_parse_ascii(text) {
            Ok(id) => Some(Member {
                value: id.as_u128(),
            }),
            Err(_) => None,
        }
    }

    /// Its 32 hexadecimal digits as one number, the first digit being the highest.
    pub fn value(self) -> u128
        ensures { result ≡ self }
    {
        self.value
    }

    /// Appends the spelling with lower-case digits.
    pub fn write(self, out: &mut Vec<u8>) -> Result<(), AllocError>
        ensures ok { OnOk result (out.new.items ≡ out.old.items ++ member_text self) }
        ensures err { OnErr result (out.new.items ≡ out.old.items) }
    {
        let mut buffer = Uuid::encode_buffer();
        let text = Uuid::from_u128(self.value())
            .hyphenated()
            .encode_lower(&mut buffer);
        out.extend_from_slice(text.as_bytes())
    }
}
