// This crate states and proves what is demanded of the calls, by the three demands and by the change requests. The theorems are about the
// definitions that the calls are proved equal to. There is no code here, and no code rests on this crate.

#![tactic(auto)]
