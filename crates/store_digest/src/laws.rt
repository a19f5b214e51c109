//! Laws of the definitions, each the contract of a function that does nothing.

ghost use Rattle.store_digest.specs.Laws.{OneTextOneList, DigestStays, CopiesHaveTheDigest};

/// Rows with the same text are the same rows.
pub fn one_text_one_list()
    ensures { OneTextOneList }
{}

/// The digest of what a pin shows isn't changed by later imports.
pub fn digest_stays()
    ensures { DigestStays }
{}

/// A copy of the first imports of a store has the digest that the store has at that pin.
pub fn copies_have_the_digest()
    // promise: a_copy_is_whole_and_the_same
    ensures { CopiesHaveTheDigest }
{}
