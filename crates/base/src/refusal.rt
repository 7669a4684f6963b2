// Why something is refused, and the numbers of refusal.
ghost use Rattle.std.specs.Prelude.{◌≡◌, ℕ};
ghost use Rattle.base.specs.Refusal.{number_of};

// The number of no refusal.
pub const ACCEPTED: u8 = 0;

// Each refusal with its number.
#[derive(Clone, Copy, PartialEq, Eq)]
pub enum Refusal {
    // string, list, shortest writing or resource form over its limit
    TooLong = 1,
    // end inside an element
    Cut = 2,
    // octet not used there
    Unused = 3,
    // unknown sequence
    Unknown = 4,
    // set not approved for that form
    NotApproved = 5,
    // version sequence
    Version = 6,
    // bad extended segment
    BadSegment = 7,
    // direction rule
    Direction = 8,
    // too many directions open
    TooDeep = 9,
    // list or output too short
    NoRoom = 10,
    // bad unit, no such run, no such reader
    BadUnit = 11,
    // work room too short
    NoWorkRoom = 12,
    // in a resource form: a backslash that begins no escape, a raw newline, a raw 00
    BadForm = 13,
    // an X11R5 string that no 00 ends
    NotEnded = 14,
    // what X11R5 does not have: a direction mark, an extended segment
    Unsupported = 15,
}

impl Refusal {
    // The number of the refusal.
    pub fn number(self) -> u8
        ensures { result ≡ number_of self }
    {
        self as u8
    }
}

// A reason for which something is refused: a refusal, or any number, as another caller may have it.
pub trait Reason: Copy {
    ghost number: { Self → ℕ };

    // The reason that a refusal is.
    fn of(refusal: Refusal) -> Self
        ensures { number result ≡ number_of refusal };
}

impl Reason for Refusal {
    ghost number = { number_of };

    fn of(refusal: Refusal) -> Refusal {
        refusal
    }
}

impl Reason for u8 {
    ghost number = { λ n. n };

    fn of(refusal: Refusal) -> u8 {
        refusal.number()
    }
}
