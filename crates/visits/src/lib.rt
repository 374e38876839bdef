// This crate walks over a decoded graph: it sorts the nodes with targets first, unless there is a cycle, and numbers them by first visit.
// The crate serves the graphs of records, and those of a combination, which have up to 510 nodes and 4,096 links. The crate knows graphs in
// words alone.

#![tactic(auto)]

pub mod numbering;
pub mod sorting;
