// The state of a store of versions (document 02, Paper 11): the programs in slots, packing them into the bytes of a state, and unpacking these
// bytes. This crate knows tables, records and the operations on them, and nothing of the way to a state.

#![tactic(auto)]

pub mod packing;
pub mod slots;
pub mod unpacking;
