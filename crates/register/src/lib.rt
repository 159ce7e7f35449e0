// The register of an interchange: how many messages it has, and of each where it stands, its length, its loads and their grams.
#![tactic(auto)]

pub mod entries;
pub mod register;
