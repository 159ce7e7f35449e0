// The report on an interchange: its text, laid into a lent buffer.
#![tactic(auto)]

pub mod text;
