// This crate is the mathematics of typed feature graphs of any size and has no code: their order, generalization (common part),
// unification (combination), difference and written numbering. The definitions stand in specs/, the theorems in proofs/. The crate knows
// nothing of tables, bytes and records; the crates that compute on graphs state their contracts by its definitions.

#![tactic(auto)]
