//! Numbers in decimal digits.

ghost use Rattle.std.specs.Prelude.{◌≡◌, ℕ, ◌<◌, ◌^◌, ◌↔◌, Some, IfSome, IsTrue, decimal};
ghost use Rattle.rf2_values.specs.Private.{IsPlain};

/// Whether the text has neither a plus sign nor a leading zero, and isn't empty.
fn is_plain(text: &[u8]) -> bool
    ensures { IsTrue result ↔ IsPlain text.now }
{
    match text {
        [] => false,
        [b'0', rest @ ..] => rest.is_empty(),
        [first, ..] => *first != b'+',
    }
}

/// The number that the text spells: decimal digits, no sign, no leading zero but `0` itself.
pub fn parse(text: &[u8]) -> Option<u64>
    ensures found { IfSome result (λ n. text.now ≡ decimal n) }
    ensures only { (n : ℕ) → n < 2 ^ 64 → text.now ≡ decimal n → result ≡ Some n }
{
    if !is_plain(text) {
        return None;
    }
    match str::from_utf8(text) {
        Ok(digits) => digits.parse::<u64>().ok(),
        Err(_) => None,
    }
}
