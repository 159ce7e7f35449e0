// The octets of one EDIFACT interchange: service characters, repertoire, segments, elements, components, content.
// specs/ says what each call means. No call has a `requires` but `tag_in`, `stop` and what fills a class table.
#![tactic(auto)]

pub mod classes;
pub mod content;
pub mod cutting;
pub mod opening;
pub mod reading;
pub mod repertoire;

// What is wrong with an interchange, as document 01 numbers it, with its place: what reading tells, from below.
#[derive(Clone, Copy)]
pub struct Breach {
    pub number: u8,
    pub place: usize,
}

// What a call gives back: a breach, or one of the numbers that the calls add. `segment` is the ordinal of the segment at the place, 0 where there is none.
#[derive(Clone, Copy)]
pub struct Refusal {
    pub number: u8,
    pub place: usize,
    pub segment: usize,
}

// The service characters. A release or a repetition that is a space, 32, is not in force.
#[derive(Clone, Copy)]
pub struct Service {
    pub component: u8,
    pub element: u8,
    pub release: u8,
    pub repetition: u8,
    pub terminator: u8,
}

// The syntax versions: 2 is the earlier edition.
#[derive(Clone, Copy)]
pub enum Version {
    Two,
    Three,
    Four,
}

// The repertoires UNOA, UNOB, UNOC and UNOD.
#[derive(Clone, Copy)]
pub enum Level {
    A,
    B,
    C,
    D,
}

// What UNB's first element and UNA settle for the whole interchange.
#[derive(Clone, Copy)]
pub struct Syntax {
    pub version: Version,
    pub level: Level,
    pub service: Service,
}
