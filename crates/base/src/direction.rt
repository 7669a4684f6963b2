// The direction in force.
pub const NONE: u8 = 0;

pub const LEFT_TO_RIGHT: u8 = 1;

pub const RIGHT_TO_LEFT: u8 = 2;
