// Document 01's small set: specs/ has its cases 1 to 12 as one table, and proofs/ has the one result about the definitions of the calls. The
// crate has no code.

#![tactic(auto)]
