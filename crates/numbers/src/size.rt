// The sizes of the numbers of sets: a number is 16 × the place of GL + the place of GR.

// the places of GL; it also stands for none of them
pub const GL: usize = 5;

// those of GR that a set has
pub const GR: usize = 13;

// those of GR with the spare ones; it also stands for none of them
pub const COLUMNS: usize = 16;

pub const NUMBERS: usize = 80;
