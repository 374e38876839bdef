// Which nodes and links of s a difference keeps (document 01, "Difference"), and the rows that are left of s. `groups` has marked the links
// before, and `wanting` has found the wanted labels; `reasons` goes on from the kept links. This crate knows graphs in words, those marks
// and those labels.

#![tactic(auto)]

pub mod keep;
pub mod rows;
