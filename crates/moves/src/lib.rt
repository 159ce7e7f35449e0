// The moves of a stored register from form to form.
#![tactic(auto)]

pub mod moving;
pub mod reading;
