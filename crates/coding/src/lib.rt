#![tactic(auto)]

// No functions: the codes, the fields and the records of the parameter bits, and their laws.
