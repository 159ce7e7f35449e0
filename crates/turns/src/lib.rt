// One segment in its place: what is kept of what was read so far, and the turn of a segment in it, 4 and 3, then 7 to 12.
#![tactic(auto)]

pub mod state;
