#![tactic(auto)]

// No functions: the arithmetic, the lists and the answers that every definition is made of, and their laws.
