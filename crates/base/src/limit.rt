// The limits of the papers.

// the most octets of a string
pub const OCTETS: usize = 65535;
// the most units of a list
pub const UNITS: usize = 65535;
// the most directions that may be open at once
pub const DEPTH: u8 = 16;
// the most octets of a resource form
pub const FORM: usize = 262140;
