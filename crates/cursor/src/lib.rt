// The unit at a cursor of an accepted string. Since nothing of it can be refused, text is read by its octets alone, and of the state a cursor
// keeps the sets and the open directions, as plain numbers: one that held a whole state would be copied through memory at each step (docs/SPEED.md).
#![tactic(auto)]

ghost use Rattle.std.specs.Prelude.{◌≡◌, ◌+◌, ◌<◌, ◌^◌, length};
ghost use Rattle.base.specs.Choice.{from};
ghost use Rattle.cursor.specs.Cursor.{cursor, placed_at, first, state_in, element_turn, marked_turn, text_octet, set_at, single, double};
ghost use Rattle.cursor.specs.Cursor.{double_of, text_turn, passed_of, advance_of};
ghost use Rattle.state.specs.Directions.{in_force_of};
ghost use Rattle.state.specs.State.{sets};

use crate::marks::marked;
use crate::octets::{one_octet, two_octets};
use base::Unit;
use charset::{FIRST_DOUBLE, NO_SET};
use designations::designation_at;
use state::directions::Directions;
use state::{Sets, State};

pub mod marks;
pub mod octets;

// Where the next unit is looked for: a place of the string, the sets in force there, and the open directions, as `Directions` has them.
#[derive(Clone, Copy)]
pub struct Cursor {
    pub place: usize,
    pub levels: u64,
    pub gl: u8,
    pub gr: u8,
    pub depth: u8,
}

// A unit, and the cursor after it.
#[derive(Clone, Copy)]
pub struct Turn {
    pub cursor: Cursor,
    pub unit: Unit,
}

impl Cursor {
    // The start of a string.
    pub fn first() -> Cursor
        ensures { result ≡ first }
    {
        Cursor {
            place: 0,
            levels: 0,
            gl: 0,
            gr: 3,
            depth: 0,
        }
    }

    // The state there, as if neither a mark nor text had been read: it refuses nothing that the string's own state accepts.
    // No From: two of the state's four parts are left out, and the way back, `cursor_at`, takes a place too.
    pub fn state(self) -> State
        ensures { result ≡ state_in self }
    {
        State {
            directions: Directions {
                levels: self.levels,
                depth: self.depth,
                marked: false,
                texted: false,
            },
            sets: Sets {
                gl: self.gl,
                gr: self.gr,
            },
        }
    }

    // The direction in force there.
    pub fn direction(self) -> u16
        ensures { result ≡ in_force_of (state_in self).directions }
    {
        self.state().directions.in_force() as u16
    }

    // Another place, in the same state.
    pub fn placed_at(self, place: usize) -> Cursor
        ensures { result ≡ placed_at place self }
    {
        Cursor {
            place,
            levels: self.levels,
            gl: self.gl,
            gr: self.gr,
            depth: self.depth,
        }
    }
}

// A place, with what a cursor keeps of a state.
pub fn cursor_at(place: usize, st: State) -> Cursor
    ensures { result ≡ cursor place st }
{
    Cursor {
        place,
        levels: st.directions.levels,
        gl: st.sets.gl,
        gr: st.sets.gr,
        depth: st.directions.depth,
    }
}

// The unit of the next element that gives one, and the cursor after it.
pub fn by_element(s: &[u8], c: Cursor) -> Turn
    ensures { result ≡ element_turn s.now c }
{
    match units::next_unit(s, c.place, c.state()) {
        Ok(given) => Turn {
            cursor: cursor_at(given.place, given.state),
            unit: given.unit,
        },
        Err(_) => Turn {
            cursor: c,
            unit: Unit::BLANK,
        },
    }
}

// A GL octet of a character or space, or a GR octet.
#[tactic(auto, using(base::proofs::Ladder::ladder), unfolding(crate::specs::Cursor::text_octet))]
fn text_octet(b: u8) -> bool
    ensures { result ≡ text_octet b }
{
    (0x20..0x7F).contains(&b) || 0xA0 <= b
}

// The set on the side of an octet.
#[tactic(auto, using(base::proofs::Ladder::ladder), unfolding(crate::specs::Cursor::set_at))]
pub fn set_at(b: u8, gl: u8, gr: u8) -> u8
    ensures { result ≡ set_at b (sets gl gr) }
{
    if b < 0x80 { gl } else { gr }
}

// A character or space of one octet, of this set.
fn single_turn(c: Cursor, b: u8, set: u8) -> Turn
    requires { c.place + 1 < 2 ^ 64 }
    ensures { result ≡ single c.place b set (state_in c) }
{
    Turn {
        cursor: c.placed_at(c.place + 1),
        unit: one_octet(c.place, b, set, c.direction(), c.depth as u16),
    }
}

// A character of two octets, of this set.
fn double_turn(c: Cursor, b: u8, d: u8, set: u8) -> Turn
    requires { c.place + 2 < 2 ^ 64 }
    ensures { result ≡ double c.place b d set (state_in c) }
{
    Turn {
        cursor: c.placed_at(c.place + 2),
        unit: two_octets(c.place, b, d, set, c.direction(), c.depth as u16),
    }
}

// A character of two octets that begins with b, where its set has two.
fn or_two(s: &[u8], c: Cursor, b: u8, set: u8) -> Turn
    requires { c.place < length s.now }
    ensures { result ≡ double_of c.place b (from (c.place + 1) s.now) set (state_in c) (marked_turn s.now c) }
{
    let next = c.place + 1;
    if next < s.len() && b != 0x20 && set < NO_SET {
        double_turn(c, b, s[next], set)
    } else {
        marked(s, c)
    }
}

// The unit at a cursor: a character or space by its octets alone, a mark by its second octet, and any other unit by its element.
fn text_or_element(s: &[u8], c: Cursor) -> Turn
    ensures { result ≡ text_turn s.now c }
{
    let at = c.place;
    if s.len() <= at {
        return marked(s, c);
    }
    let b = s[at];
    if text_octet(b) {
        let set = set_at(b, c.gl, c.gr);
        if set < FIRST_DOUBLE {
            single_turn(c, b, set)
        } else {
            or_two(s, c, b, set)
        }
    } else if b == 0x9B {
        marked(s, c)
    } else {
        by_element(s, c)
    }
}

// The cursor after a designation, where one stands at it.
fn passed(s: &[u8], c: Cursor) -> Cursor
    ensures { result ≡ passed_of s.now c }
{
    match designation_at(s, c.place) {
        Ok(d) => cursor_at(c.place + d.octets, c.state().designated(d.side, d.set)),
        Err(_) => c,
    }
}

// The unit at a cursor of an accepted string, and the cursor after it.
pub fn advance(s: &[u8], c: Cursor) -> Turn
    ensures { result ≡ advance_of s.now c }
{
    if c.place < s.len() && s[c.place] == 0x1B {
        text_or_element(s, passed(s, passed(s, c)))
    } else {
        text_or_element(s, c)
    }
}
