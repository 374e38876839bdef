// Import and export of a graph as lent rows and node bytes (document 02, Paper 2). Import opens the table, tests the rows, judges their graph
// and writes its record; export reads a record and fills its rows. This crate knows tables, records and rows, and no operation on graphs.

#![tactic(auto)]

pub mod exporting;
pub mod importing;
