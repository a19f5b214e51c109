//! Three small releases, which the demonstration imports and tests use.
#![tactic(auto)]

mod releases;

pub use releases::sample;
