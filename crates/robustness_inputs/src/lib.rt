// Generated and damaged records, tables and arguments, and the counts and digest of what calls answer, for the robustness run. Numbers come from a fixed
// seed.
#![tactic(auto)]

pub mod arguments;
pub mod random;
pub mod tables;
pub mod tally;
pub mod terms;
pub mod texts;
