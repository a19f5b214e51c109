//! A law of the definitions, the contract of a function that does nothing.

ghost use Rattle.std.specs.Prelude.{◌≡◌, false, encode_utf8_all};
ghost use Rattle.std.specs.List.{AllByRecursion};
ghost use Rattle.shown_names.specs.Shown.{shown, is_unseen, IsPrintable};

/// Whatever the name is, the text that is shown for it has no control character, no line separator
/// and no mark of text direction: neither among its characters, nor among the bytes that are
/// written.
pub fn no_control_characters(name: &[u8])
    // promise: what_is_passed_over_is_told
    ensures characters { AllByRecursion (λ c. is_unseen c ≡ false) (shown name.now) }
    // promise: what_is_passed_over_is_told
    ensures bytes { AllByRecursion IsPrintable (encode_utf8_all (shown name.now)) }
{}
