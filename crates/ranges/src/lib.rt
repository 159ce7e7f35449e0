// What is sealed: the ranges of scope 1 and scope 2. Each is handed back as a part of the caller's octets, or by its places.
#![tactic(auto)]

pub mod scopes;
