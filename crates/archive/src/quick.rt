// Units and designations, one after another, where text leaves the directions as they are; and tabs and newlines, which always do.
ghost use Rattle.std.specs.Prelude.{◌≡◌, true, ◌+◌, ◌≤◌, length};
ghost use Rattle.octet_stretches.specs.Stretched.{Ones, Stretched};
ghost use Rattle.archive_laws.specs.Passes.{Reaches, EscapeAt, row_at};

use crate::classes::Entries;
use charset::Side;
use designations::{form_after, told};
use octet_stretches::{Stretch, singles_by, stretch_by};
use octet_table::{left_of, right_of};
use state::Sets;

// The row of two octets in GL and GR, of which tabs and newlines alone are units of one octet.
pub const BLANK_ROW: usize = 1280;

// How far it goes: the place, the units up to there, and the sets in force.
#[derive(Clone, Copy)]
pub struct Reach {
    pub place: usize,
    pub units: usize,
    pub sets: Sets,
}

// Whether four octets are left at a place, the first of them 1B.
fn escape_at(s: &[u8], at: usize) -> bool
    requires { at ≤ length s.now }
    ensures { result ≡ true → EscapeAt s.now at }
{
    4 <= s.len() - at && s[at] == 0x1B
}

// The stretch at a place, by a row of what is lent. A row has 256 entries by its two ends, so that it is not asked for its length.
fn stretch_in(t: &Entries, s: &[u8], at: usize, row: usize) -> Stretch
    requires { row ≤ 1280 }
    ensures { Stretched (row_at row t.now) s.now at (at + result.octets) result.units }
{
    stretch_by(&t[row..row + 256], s, at)
}

// The units and designations at a place. The row is kept by its two parts, which wait for the form of a designation and not for its set.
pub fn quick(t: &Entries, s: &[u8], at: usize, start: Sets) -> Reach
    requires { at ≤ length s.now }
    ensures { Reaches t.now s.now at start result.place result.sets result.units }
{
    let mut place = at;
    let mut units: usize = 0;
    let mut sets = start;
    let mut high = left_of(charset::form_of(sets.gl));
    let mut low = right_of(charset::form_of(sets.gr));
    while place < s.len() {
        let u = stretch_in(t, s, place, high + low);
        place += u.octets;
        units += u.units;
        if escape_at(s, place) {
            let b = s[place + 1];
            let Some(d) = told(b, s[place + 1 + 1], s[place + 1 + 1 + 1]) else {
                break;
            };
            place += d.octets;
            match d.side {
                Side::GL => {
                    sets.gl = d.set;
                    high = left_of(form_after(b));
                }
                Side::GR => {
                    sets.gr = d.set;
                    low = right_of(form_after(b));
                }
            }
        } else if u.octets == 0 {
            break;
        }
    }
    Reach { place, units, sets }
}

// The place after the tabs and newlines at a place.
pub fn blanks(t: &Entries, s: &[u8], at: usize) -> usize
    ensures { Ones (row_at 1280 t.now) s.now at result }
{
    singles_by(&t[BLANK_ROW..BLANK_ROW + 256], s, at)
}
