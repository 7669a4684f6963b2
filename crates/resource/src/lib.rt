// Resource files: octets are written in the form that stands in such a file, and read from it.
#![tactic(auto)]

pub mod read;
pub mod write;
