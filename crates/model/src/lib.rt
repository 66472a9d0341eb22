#![tactic(auto)]

// No functions: recordings, buckets, least figures, tables, seconds, when each is refused, and their laws.
