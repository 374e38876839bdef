// This crate has the words of a type table (document 01, "Type table"): bit j of word i is set where type j is on one side of type i, below it
// or above it. The crate reads them, turns them, searches them for a type, and finds the wanted type of a node. Its theory has the order of a
// table, the labels of a table and their laws. Crate `acceptance` tests a table, and crate `bounds` opens one for meets or joins. This crate
// knows a table's bytes, and nothing of records; it refuses no table.

#![tactic(auto)]

pub mod search;
pub mod wanted;
pub mod words;
