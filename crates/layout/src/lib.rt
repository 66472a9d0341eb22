#![tactic(auto)]

// No functions: what a sheet is and what is printed of it, and their laws.
