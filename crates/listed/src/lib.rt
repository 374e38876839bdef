// The list of all small graphs in the order of their records' bytes (document 02, Paper 14): its definition, and the theorems on it. This crate
// has no code; `listing` has the call.

#![tactic(auto)]
