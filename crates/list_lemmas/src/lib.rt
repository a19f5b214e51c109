//! Lemmas on lists, options, tests and orders that several crates cite. It has no functions.
#![tactic(auto)]
