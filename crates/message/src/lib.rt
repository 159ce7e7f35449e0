// The open message as a small state, and what a segment does to it: 7, 9, 11 and 12.
#![tactic(auto)]

pub mod heads;
pub mod items;
pub mod kept;
pub mod order;
pub mod steps;

use grammar::Subset;

// The group of a message that is now open.
#[derive(Clone, Copy)]
pub enum Group {
    // UNH, nothing behind it
    Opened,
    // a header group: its USAs
    Header(u8),
    // a certificate: those before it in its header group, its USAs, whether its USR stands
    Certificate(u8, u8, bool),
    Body,
    // AUTACK's body: whether a USX has come, whether the last one has a USY
    Ack(bool, bool),
    // a trailer group: whether its USR stands
    Trailer(bool),
}

// A message's loads so far: how many, the grams of those loaded and of those tipped back; of its control totals whether there is one, the grams of the
// first and whether they are below zero, and whether the others equal it.
#[derive(Clone, Copy)]
pub struct Sums {
    pub grams: u64,
    pub back: u64,
    pub control: u64,
    pub loads: u32,
    pub controlled: bool,
    pub agree: bool,
    pub below: bool,
}

// A message's trailers so far: whether all but the last count right; of the last what it claims, the segments of its header, and its own.
#[derive(Clone, Copy)]
pub struct Pair {
    pub claim: u32,
    pub base: u32,
    pub own: u16,
    pub right: bool,
}

// A message as far as it was read. Large fields first, so that little padding is copied with every segment.
#[derive(Clone, Copy)]
pub struct Message {
    pub sums: Sums,
    pub pair: Pair,
    pub segments: u32,
    pub group: Group,
    pub headers: u16,
    pub autack: Option<Subset>,
}
