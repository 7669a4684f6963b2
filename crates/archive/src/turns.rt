// The next unit of an accepted string, by the table that is lent: what the check has decided is not decided again.
ghost use Rattle.std.specs.Prelude.{◌≡◌, ◌+◌, ◌<◌, ◌≤◌, ◌^◌};
ghost use Rattle.octet_table.specs.Table.{table};
ghost use Rattle.cursor.specs.Cursor.{passed_of};
ghost use Rattle.archive_laws.specs.Passes.{Classed};
ghost use Rattle.archive.specs.Turns.{rowed, rowed_turn, first_row, Ready, turn_of, moved_by, if_character, set_by, one_record, two_record};

use crate::classes::{Entries, class_at};
use base::{Unit, kind};
use charset::Side;
use cursor::marks::marked;
use cursor::octets::two_octets;
use cursor::{Cursor, Turn};
use designations::told;
use octet_table::{ESCAPE, MARK, ONE_GR, TWO_GL, TWO_GR, row_of};

// Where the next unit is looked for, where the row of the table starts that its sets have, and the direction in force there.
#[derive(Clone, Copy)]
pub struct RowCursor {
    pub cursor: Cursor,
    pub row: usize,
    pub direction: u16,
}

// A unit, and the cursor after it.
#[derive(Clone, Copy)]
pub struct RowTurn {
    pub cursor: RowCursor,
    pub unit: Unit,
}

impl RowCursor {
    // The start of a string.
    #[tactic(auto, unfolding(state::specs::Directions::in_force_of, base::specs::Choice::pick))]
    pub fn first() -> RowCursor
        ensures { result ≡ first_row }
    {
        RowCursor {
            cursor: Cursor::first(),
            row: row_of(0, 3),
            direction: 0,
        }
    }

    // So many octets further, in the same state.
    fn moved(self, octets: usize) -> RowCursor
        requires { self.cursor.place + octets < 2 ^ 64 }
        ensures { result ≡ moved_by self octets }
    {
        RowCursor {
            cursor: self.cursor.placed_at(self.cursor.place + octets),
            ..self
        }
    }
}

// A space, a tab and a newline have neither set nor code.
#[tactic(auto, using(base::proofs::Ladder::ladder), unfolding(crate::specs::Turns::if_character))]
fn if_character(k: u8, x: u8) -> u8
    ensures { result ≡ if_character k x }
{
    if k % 4 == 0 { x } else { 0 }
}

// The set on the side of a class.
#[tactic(auto, using(base::proofs::Ladder::ladder), unfolding(crate::specs::Turns::set_by))]
fn set_by(k: u8, gl: u8, gr: u8) -> u8
    ensures { result ≡ set_by k gl gr }
{
    if k == ONE_GR { gr } else { gl }
}

// The record of a unit of one octet at a cursor, by its class.
fn one(c: Cursor, b: u8, k: u8, set: u8, direction: u16) -> Unit
    ensures { result ≡ one_record c b k set direction }
{
    Unit {
        kind: k % 4,
        set: if_character(k, set),
        code: if_character(k, b % 128).into(),
        start: (c.place % 0x1_0000_0000) as u32,
        length: 1,
        direction,
        depth: c.depth.into(),
    }
}

// A turn, with the row of the sets after it and the direction in force. The cursor is made anew: copied as it stands, its padding would be carried
// round the loop too.
fn with_row(t: Turn) -> RowTurn
    ensures { result ≡ rowed_turn t }
{
    let next = t.cursor;
    RowTurn {
        cursor: RowCursor {
            cursor: next.placed_at(next.place),
            row: row_of(next.gl, next.gr),
            direction: next.direction(),
        },
        unit: t.unit,
    }
}

// Any unit, by its element.
fn by_element(s: &[u8], c: RowCursor) -> RowTurn
    ensures { result ≡ turn_of s.now c.cursor }
{
    with_row(cursor::by_element(s, c.cursor))
}

// A mark.
fn by_mark(s: &[u8], c: RowCursor) -> RowTurn
    requires { Ready s.now c }
    ensures { result ≡ turn_of s.now c.cursor }
{
    with_row(marked(s, c.cursor))
}

// The record of a character in GL at a cursor.
fn two_left(c: Cursor, b: u8, d: u8, direction: u16) -> Unit
    requires { (b < 128) × (d < 128) }
    ensures { result ≡ two_record c b d c.gl direction }
{
    Unit {
        kind: kind::CHARACTER,
        set: c.gl,
        code: u16::from_be_bytes([b, d]),
        start: (c.place % 0x1_0000_0000) as u32,
        length: 2,
        direction,
        depth: c.depth.into(),
    }
}

// A tab, a newline, a space or a character, by its class.
fn text_turn(s: &[u8], c: RowCursor, k: u8) -> RowTurn
    requires { Ready s.now c × Classed c.row s.now c.cursor.place k × (k ≤ 6) }
    ensures { result ≡ turn_of s.now c.cursor }
{
    let j = c.cursor;
    let at = j.place;
    if k == TWO_GL {
        return RowTurn {
            cursor: c.moved(2),
            unit: two_left(j, s[at], s[at + 1], c.direction),
        };
    }
    if k <= ONE_GR {
        return RowTurn {
            cursor: c.moved(1),
            unit: one(j, s[at], k, set_by(k, j.gl, j.gr), c.direction),
        };
    }
    RowTurn {
        cursor: c.moved(2),
        unit: two_octets(at, s[at], s[at + 1], j.gr, c.direction, j.depth as u16),
    }
}

// The cursor after a designation, where one stands at it.
fn passed(s: &[u8], c: RowCursor) -> RowCursor
    requires { Ready s.now c }
    ensures { result ≡ rowed (passed_of s.now c.cursor) }
{
    let j = c.cursor;
    let at = j.place;
    if s.len() - at < 4 || s[at] != 0x1B {
        return c;
    }
    let Some(d) = told(s[at + 1], s[at + 1 + 1], s[at + 1 + 1 + 1]) else {
        return c;
    };
    let mut next = j.placed_at(at + d.octets);
    match d.side {
        Side::GL => {
            next.gl = d.set;
            RowCursor {
                cursor: next,
                row: row_of(d.set, j.gr),
                direction: c.direction,
            }
        }
        Side::GR => {
            next.gr = d.set;
            RowCursor {
                cursor: next,
                row: row_of(j.gl, d.set),
                direction: c.direction,
            }
        }
    }
}

// The unit after a designation, where one stands at the cursor, and else the unit at it.
fn escaped(t: &Entries, s: &[u8], c: RowCursor) -> RowTurn
    requires { (t.now ≡ table) × Ready s.now c }
    ensures { result ≡ turn_of s.now c.cursor }
{
    let d = passed(s, c);
    let j = d.cursor;
    let k = class_at(t, s, j.place, d.row);
    if k <= TWO_GR {
        return text_turn(s, d, k);
    }
    by_element(s, d)
}

// The next unit, and the cursor after it.
pub fn turn(t: &Entries, s: &[u8], c: RowCursor) -> RowTurn
    requires { (t.now ≡ table) × Ready s.now c }
    ensures { result ≡ turn_of s.now c.cursor }
{
    let j = c.cursor;
    let k = class_at(t, s, j.place, c.row);
    if k <= TWO_GR {
        return text_turn(s, c, k);
    }
    if k == MARK {
        return by_mark(s, c);
    }
    // Two calls, so that the compiler leaves the function out of the loop over text.
    if k == ESCAPE {
        return escaped(t, s, c);
    }
    escaped(t, s, c)
}
