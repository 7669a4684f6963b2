// The tags of units. Below SPACE a character of the set of that number. Numbers and no enum: rows hold them, and any octet is a tag (specs/Rows).

// the first set of two octets
pub const DOUBLE: u8 = charset::FIRST_DOUBLE;

pub const SPACE: u8 = 15;

pub const TAB: u8 = 16;

pub const NEWLINE: u8 = 17;

pub const LEFT_TO_RIGHT: u8 = 18;

pub const RIGHT_TO_LEFT: u8 = 19;

pub const REVERT: u8 = 20;

// an extended segment with d of 30 hexadecimal; the next four are those of 31 to 34
pub const SEGMENT: u8 = 21;

// no unit's tag, and any above; it stands for a revert
pub const SPARE: u8 = 26;

// d less the tag of its segment
pub const D: u16 = 27;

// the tag of a unit of kinds 1 to 6, less its kind
pub const KIND: u8 = 14;
