// The F01 run of an interchange.
#![tactic(auto)]

pub mod span;
