// The walk over the segments of an interchange, which every call shares: a segment further, and by sections (UNB, a message, UNZ).
#![tactic(auto)]

pub mod advance;
pub mod layout;
pub mod sections;
