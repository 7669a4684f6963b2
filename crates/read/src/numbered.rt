// The units of a span by their number: whether one stands there, and its record.
ghost use Rattle.std.specs.Prelude.{◌≡◌, ◌+◌, ◌*◌, ◌<◌, ◌^◌, leb, length, get_or};
ghost use Rattle.state.specs.State.{sets};
ghost use Rattle.spans.specs.Spans.{ones, single_under, left_first, Fits, moved_of, stands_after, one_unit_at, two_octet_unit_at, unit_after};

use base::Unit;
use cursor::octets::{one_octet, two_octets};
use cursor::{Cursor, set_at};
use spans::{LEFT_TWOS, ONES, RIGHT_TWOS, Span, left_first, single};

// The cursor after j units of a span.
pub fn moved(r: Span, j: usize) -> Cursor
    requires { (r.form ≡ ones → r.cursor.place + j < 2 ^ 64) × (ones < r.form → r.cursor.place + 2 * j < 2 ^ 64) }
    ensures { result ≡ moved_of r j }
{
    let c = r.cursor;
    if r.form == ONES {
        let place = c.place + j;
        return c.placed_at(place);
    }
    if ONES < r.form {
        let place = c.place + 2 * j;
        return c.placed_at(place);
    }
    c.placed_at(c.place)
}

// The octet at a place, as `single` and `left_first` take it, and as the first of two in GR. Each reads it by itself, so that the compiler
// makes a loop of each form.
fn single_at(s: &[u8], at: usize, gl: u8, gr: u8) -> bool
    requires { at < length s.now }
    ensures { result ≡ single_under (get_or s.now at 0) (sets gl gr) }
{
    single(s[at], gl, gr)
}

fn left_at(s: &[u8], at: usize) -> bool
    requires { at < length s.now }
    ensures { result ≡ left_first (get_or s.now at 0) }
{
    left_first(s[at])
}

fn right_at(s: &[u8], at: usize) -> bool
    requires { at < length s.now }
    ensures { result ≡ leb 0xA0 (get_or s.now at 0) }
{
    0xA0 <= s[at]
}

// Whether the unit after j units of a span is of its form.
pub fn stands_at(s: &[u8], r: Span, j: usize) -> bool
    requires { Fits s.now r × (j < r.most) }
    ensures { result ≡ stands_after s.now r j }
{
    let c = r.cursor;
    if r.form == ONES {
        return single_at(s, c.place + j, c.gl, c.gr);
    }
    if r.form == LEFT_TWOS {
        return left_at(s, c.place + 2 * j);
    }
    if r.form == RIGHT_TWOS {
        return right_at(s, c.place + 2 * j);
    }
    true
}

// The units at a place, in the state of a cursor, whose direction does not change within a span.
fn one(s: &[u8], at: usize, c: Cursor) -> Unit
    requires { at < length s.now }
    ensures { result ≡ one_unit_at s.now at c }
{
    let b = s[at];
    one_octet(at, b, set_at(b, c.gl, c.gr), c.direction(), c.depth as u16)
}

fn two(s: &[u8], at: usize, set: u8, c: Cursor) -> Unit
    requires { at + 1 < length s.now }
    ensures { result ≡ two_octet_unit_at s.now at set c }
{
    two_octets(at, s[at], s[at + 1], set, c.direction(), c.depth as u16)
}

// The unit after j units of a span.
pub fn nth(s: &[u8], r: Span, j: usize) -> Unit
    requires { Fits s.now r × (j < r.most) }
    ensures { result ≡ unit_after s.now r j }
{
    let c = r.cursor;
    if r.form == ONES {
        return one(s, c.place + j, c);
    }
    if r.form == LEFT_TWOS {
        return two(s, c.place + 2 * j, c.gl, c);
    }
    if r.form == RIGHT_TWOS {
        return two(s, c.place + 2 * j, c.gr, c);
    }
    r.unit
}
