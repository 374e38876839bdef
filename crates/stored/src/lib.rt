// This crate states and proves what document 02, Paper 11, demands of stores. The theorems are about the definitions that the calls of `store`
// are proved equal to. There is no code here.

#![tactic(auto)]
