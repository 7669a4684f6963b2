// A row of the work room: its octets, and the places in it where the seven of a unit stand. Those before are left to the plan.
pub const ROW: usize = 72;
// the unit's tag
pub const TAG: usize = 65;
// the code of a character, or the n of a segment: the higher octet and the lower
pub const HIGH: usize = 66;

pub const LOW: usize = 67;
// where a segment's octets start: four octets, the highest first
pub const START: usize = 68;
