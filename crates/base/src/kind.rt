// The kinds of a unit.
pub const CHARACTER: u8 = 0;

pub const SPACE: u8 = 1;

pub const TAB: u8 = 2;

pub const NEWLINE: u8 = 3;

pub const LEFT_TO_RIGHT: u8 = 4;

pub const RIGHT_TO_LEFT: u8 = 5;

pub const REVERT: u8 = 6;

pub const SEGMENT: u8 = 7;
