// The functions on plain numbers, fixed arrays and bytes. The crate `staplehorn_c` hands each to C under its own name.
#![tactic(auto)]

pub mod fragments;
pub mod sheets;
pub mod statements;
pub mod version;
pub mod words;
