// This crate states and proves what document 02, Paper 4, demands of gatherings. The theorems are about the definitions that the calls of
// `gathering` are proved equal to. There is no code here.

#![tactic(auto)]
