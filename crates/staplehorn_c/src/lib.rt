// What C and Rust link: each function of the crate `staplehorn` under its own name, by one call. include/staplehorn.h has their C declarations.
#![tactic(auto)]

mod fragments;
mod sheets;
mod statements;
mod version;
mod words;
