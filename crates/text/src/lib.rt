// Bytes in a slice: what the other crates share.
#![tactic(auto)]

pub mod bytes;
pub mod decimal;
pub mod fields;
pub mod spans;
pub mod words;
pub mod writing;
