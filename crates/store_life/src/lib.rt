//! What happens to a store over calls, crashes and openings: laws only, without code that runs.
#![tactic(auto)]

pub mod laws;
