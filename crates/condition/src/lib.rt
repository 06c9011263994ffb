//! Condition 3 over the rules of the drive: the history rule, and what could have moved a band. There is no code here.

#![tactic(auto)]
