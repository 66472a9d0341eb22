// The planner for C and Rust: each export has the promise of the function of its name in `planner`, which it calls, and is proved from
// that function's contract alone: an `ensures` there that says less than the promise of which uniqueness and demands speak is refused
// here. Serves document 01, "What the planner covers".
// Kept: an export for each function of `planner`, as C links to symbols, and on a static library no crate can stand.

#![tactic(auto)]

pub mod figures;
pub mod recordings;
pub mod records;
pub mod seconds;
pub mod sheets;
pub mod version;
