// The planner for C and Rust: every operation under a name with the prefix `planner_`, with a plain struct for its answer. Serves
// document 01, "What the planner covers".
// Kept: plain arguments, one behind the other, as the C interface has them and `planner_c` hands them on.

#![tactic(auto)]

pub mod figures;
pub mod recordings;
pub mod records;
pub mod seconds;
pub mod sheets;
pub mod version;
