// The calls on a table and up to two records, as bytes, with a module for each operation. A call that writes a record takes an output that the
// caller lends, and answers the record's length or a refusal; the others answer a `Reply`. A call on records checks the table, then the list if it
// has one, and goes on in `engine` or `orders`. A refusal leaves every output unchanged. This crate knows tables and lists; those two do the
// operations.

#![tactic(auto)]

pub mod checking;
pub mod differing;
pub mod generalizing;
mod operating;
pub mod ordering;
pub mod rewriting;
pub mod unifying;
