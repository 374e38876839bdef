// The parts of a combination (document 01): two graphs side by side in one pool of words, the labels of the classes of their nodes, and the
// graph of the classes. `classes` finds the classes, and `unify` puts the parts together. This crate knows graphs in words, their classes and
// the meets that `bounds` holds; it writes no record.

#![tactic(auto)]

pub mod labels;
pub mod operands;
pub mod quotient;
