// This crate decodes a record's bytes into a graph in words, or tells that refusal 4 applies. The crate knows a record's bytes and a graph
// in words; it judges no type and no target.

#![tactic(auto)]

pub mod reader;
pub mod rows;
