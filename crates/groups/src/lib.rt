// What the calls share that name a message: the message, and its groups by their references: header groups, trailer groups, the links of
// an AUTACK.
#![tactic(auto)]

pub mod calls;
pub mod links;
pub mod named;
