// Control sequences: designations and the other escape sequences, and direction marks.
#![tactic(auto)]

pub mod escape;
pub mod mark;
