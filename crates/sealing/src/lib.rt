// Sealing a message: the octets to be signed, and the sealed interchange.
#![tactic(auto)]

pub mod seal;
