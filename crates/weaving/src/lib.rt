// What sealing puts into a message: whether it may, the text of VALUE, the new groups.
#![tactic(auto)]

pub mod allowed;
pub mod pieces;
pub mod value;
