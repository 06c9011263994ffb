//! Theorems about scripts, written and read. There is no code here.

#![tactic(auto)]
