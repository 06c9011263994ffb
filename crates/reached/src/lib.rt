//! Theorems about every drive that events reach. There is no code here.

#![tactic(auto)]
