#![tactic(auto)]

pub mod bytes;
pub mod cursor;
pub mod name;
pub mod number;
