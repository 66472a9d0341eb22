// Every answer as the plain struct that C and Rust see. A refusal has its number and its place, and all figures 0. Serves
// document 01, "What the planner covers".

#![tactic(auto)]

pub mod figures;
pub mod recordings;
pub mod records;
pub mod seconds;
pub mod sheets;
