// The judge: the verdict on an interchange, and the totals of a message in it.
#![tactic(auto)]

pub mod run;
pub mod totals;
