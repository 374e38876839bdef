// This crate turns a planning table into a graph in words, and a graph in words into a planning table: rows, each a parent, a feature and
// a target, beside three bytes for each node (document 02, Papers 2 and 7). Rows are read and filled where they are lent; none is copied.
// The crate knows rows and words; it judges no graph and knows no table of types.

#![tactic(auto)]

pub mod filling;
pub mod lending;
pub mod placing;

// One link: the node that it leaves, its feature, and the node that it enters.
#[repr(C)]
#[derive(Clone, Copy)]
pub struct Row {
    pub parent: u8,
    pub feature: u8,
    pub target: u8,
}
