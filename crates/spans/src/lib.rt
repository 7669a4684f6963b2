// Units of one form, one after another in an accepted string, found by their octets alone.
#![tactic(auto)]

ghost use Rattle.std.specs.Prelude.{◌≡◌};
ghost use Rattle.state.specs.State.{sets};
ghost use Rattle.spans.specs.Spans.{single_under, left_first, has_two, form_at, lesser_of, any_of, of_form, span_of};

use base::Unit;
use charset::{FIRST_DOUBLE, NO_SET};
use cursor::{Cursor, advance};

// The forms: any one unit, units of one octet, characters of two octets in GL, and in GR.
const ANY: u8 = 0;

pub const ONES: u8 = 1;

pub const LEFT_TWOS: u8 = 2;

pub const RIGHT_TWOS: u8 = 3;

// The units of a form that start at a cursor, so many at most, which leave its state as it is. Of any one unit the unit is given, and the cursor
// is the one after it.
#[derive(Clone, Copy)]
pub struct Span {
    pub cursor: Cursor,
    pub most: usize,
    pub unit: Unit,
    pub form: u8,
}

// An octet that is a unit: a tab, a newline, a space or a character.
pub fn single(b: u8, gl: u8, gr: u8) -> bool
    ensures { result ≡ single_under b (sets gl gr) }
{
    if b < 0x20 {
        if b < 0x09 {
            return false;
        }
        return b <= 0x0A;
    }
    if b < 0x7F {
        return gl < FIRST_DOUBLE;
    }
    if b < 0xA0 {
        return false;
    }
    gr < FIRST_DOUBLE
}

// The first octet of a character of two in GL.
pub fn left_first(b: u8) -> bool
    ensures { result ≡ left_first b }
{
    if b <= 0x20 {
        return false;
    }
    b < 0x7F
}

fn has_two(set: u8) -> bool
    ensures { result ≡ has_two set }
{
    if set < FIRST_DOUBLE {
        return false;
    }
    set < NO_SET
}

// The form of the unit that an octet begins.
fn form_at(b: u8, gl: u8, gr: u8) -> u8
    ensures { result ≡ form_at b (sets gl gr) }
{
    if single(b, gl, gr) {
        return ONES;
    }
    if left_first(b) {
        if has_two(gl) {
            return LEFT_TWOS;
        }
        return ANY;
    }
    if b < 0xA0 {
        return ANY;
    }
    if has_two(gr) {
        return RIGHT_TWOS;
    }
    ANY
}

pub fn lesser(m: usize, n: usize) -> usize
    ensures { result ≡ lesser_of m n }
{
    if m < n {
        return m;
    }
    n
}

// Any one unit. The cursor is made anew: copied as it stands, its padding would be carried along too.
fn any_unit(s: &[u8], c: Cursor) -> Span
    ensures { result ≡ any_of s.now c }
{
    let t = advance(s, c);
    let next = t.cursor;
    let unit = t.unit;
    Span {
        cursor: next.placed_at(next.place),
        most: 1,
        unit: unit,
        form: ANY,
    }
}

fn of_form(c: Cursor, form: u8, most: usize) -> Span
    ensures { result ≡ of_form c form most }
{
    Span {
        cursor: c,
        most: most,
        unit: Unit::BLANK,
        form: form,
    }
}

// The span at a cursor, of n units at most.
pub fn span_at(s: &[u8], c: Cursor, n: usize) -> Span
    ensures { result ≡ span_of s.now c n }
{
    let at = c.place;
    if s.len() <= at {
        return any_unit(s, c);
    }
    let form = form_at(s[at], c.gl, c.gr);
    if form == ANY {
        return any_unit(s, c);
    }
    let octets = s.len() - at;
    if form == ONES {
        return of_form(c, form, lesser(octets, n));
    }
    if octets < 2 {
        return any_unit(s, c);
    }
    of_form(c, form, lesser(octets / 2, n))
}
