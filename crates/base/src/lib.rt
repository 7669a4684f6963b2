// The numbers of the rules, each under a name; the answer that every entry point gives; the record of a unit.
#![tactic(auto)]

ghost use Rattle.std.specs.Prelude.{◌≡◌};
ghost use Rattle.base.specs.Answers.{answer, refused_at};
ghost use Rattle.base.specs.Refusal.{accepted, no_room, number_of};

pub mod direction;
pub mod kind;
pub mod limit;
pub mod refusal;

pub use crate::refusal::{Reason, Refusal};

// An answer: the number of the refusal (0 for accepted), its place and its count.
#[repr(C)]
#[derive(Clone, Copy)]
pub struct Answer {
    pub place: usize,
    pub count: usize,
    pub number: u8,
}

impl Answer {
    pub fn accepted(place: usize, count: usize) -> Answer
        ensures { result ≡ answer accepted place count }
    {
        Answer {
            place,
            count,
            number: refusal::ACCEPTED,
        }
    }

    pub fn refused(number: u8, place: usize) -> Answer
        ensures { result ≡ refused_at number place }
    {
        Answer {
            place,
            count: 0,
            number,
        }
    }

    // What is lent for the answer is too short: so many octets or records are needed.
    pub fn no_room(needed: usize) -> Answer
        ensures { result ≡ answer no_room 0 needed }
    {
        Answer {
            place: 0,
            count: needed,
            number: Refusal::NoRoom.number(),
        }
    }
}

impl Refusal {
    // The answer of a refusal at a place.
    pub fn at(self, place: usize) -> Answer
        ensures { result ≡ refused_at (number_of self) place }
    {
        Answer::refused(self.number(), place)
    }
}

// A unit: kind, set and code, 0 where they mean nothing; start and length name its octets in the string, and of an extended segment
// its n octets; the direction in force after it, and how many directions are then open.
#[repr(C)]
#[derive(Clone, Copy)]
pub struct Unit {
    pub kind: u8,
    pub set: u8,
    pub code: u16,
    pub start: u32,
    pub length: u32,
    pub direction: u16,
    pub depth: u16,
}

impl Unit {
    // A record with nothing in it.
    pub const BLANK: Unit = Unit {
        kind: 0,
        set: 0,
        code: 0,
        start: 0,
        length: 0,
        direction: 0,
        depth: 0,
    };
}
