// The classes of units by what they need: below SPACE a character of the set of that number. Numbers and no enum: they index tables, and
// specs/Class has them as numbers.

// the first set of two octets
pub const DOUBLE: usize = charset::FIRST_DOUBLE as usize;

pub const SPACE: usize = 15;

// a unit that needs no set
pub const FREE: usize = 16;

// how many there are
pub const ALL: usize = 17;
