// The operations that write a record, on records and on graphs in words, over a table that is already accepted: rewriting, common part,
// combination and difference. They serve `calls` and the crates that open a table themselves; crate `orders` has the order. Rewriting, common
// part and combination take a list of types for features; an empty list stands for no list. Common part and combination are the two types of the
// trait `operation::Operation`, so their two records are read by one function. This crate knows records, an accepted table and these operations;
// it opens no table.

#![tactic(auto)]

pub mod differing;
pub mod generalizing;
pub mod operation;
pub mod rewriting;
pub mod unifying;
