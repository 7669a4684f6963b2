// Where the readers for C stand between two calls: the caller keeps the string, and such a value beside it.
#![tactic(auto)]

pub mod running;
pub mod stepping;
