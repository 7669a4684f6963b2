// A run as it is handed back.
use base::Answer;

// That very part of the string; the answer; the set, octet width and direction in force.
// An answer beside them, and no Result: `Shown` (specs/Parts) says what each field is where there is no run too.
#[repr(C)]
#[derive(Clone, Copy)]
pub struct Run<'a> {
    pub part: &'a [u8],
    pub answer: Answer,
    pub set: u8,
    pub width: u8,
    pub direction: u8,
}
