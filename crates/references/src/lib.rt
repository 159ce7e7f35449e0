// The references of the messages so far: 0062 is used once in an interchange.
#![tactic(auto)]

pub mod refs;
