// The old returns: the old sum over the loads of a file, or of one message in it.
#![tactic(auto)]

pub mod loads;
pub mod sums;
