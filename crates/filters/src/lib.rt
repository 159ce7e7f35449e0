// The filters of 0505: the octets that a text stands for, read from a component with its releases in it, and the text of octets.
#![tactic(auto)]

pub mod hex;
pub mod pieces;
pub mod six;
