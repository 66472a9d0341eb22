// Function-free: the demands as theorems about the planner's own answers.

#![tactic(auto)]
