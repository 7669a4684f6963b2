// A quick check of characters and spaces. The set gives the bounds, and one test serves all sets: a processor cannot foresee a test whose
// outcome changes from word to word.
ghost use Rattle.std.specs.Prelude.{◌≡◌};
ghost use Rattle.record_rules.specs.Plain.{used_by, set_by, code_by, plain_of, settled_by_text};

use base::{Unit, kind};
use charset::NO_SET;
use state::directions::Directions;

// Whether both octets of a code lie in the bounds of its set. Each octet is measured from its lowest, round the 256, so that one that is
// too low is too high. The bounds are computed from the set, and not chosen by tests, of which the compiler would make branches.
fn used(set: u8, code: u16) -> bool
    ensures { result ≡ used_by set code }
{
    if NO_SET <= set {
        return false;
    }
    // 1 for a set of 94 by 94, and for one of 96, as the table of sets has them (`form_numbers`)
    let two_octets = (set as u32 + 4) / 16;
    let wider = (set as u32 + 13) / 16 - two_octets;
    let low = (code as u32 % 256 + 223 + wider) % 256;
    if 0x5D + 2 * wider < low {
        return false;
    }
    let high = (code as u32 / 256 + 256 - 0x21 * two_octets) % 256;
    high <= 0x5D * two_octets
}

// A space is looked at as the first character of set 0.
fn set_by(kind: u8, set: u8) -> u8
    ensures { result ≡ set_by kind set }
{
    if kind == kind::SPACE { 0 } else { set }
}

fn code_by(kind: u8, code: u16) -> u16
    ensures { result ≡ code_by kind code }
{
    if kind == kind::SPACE { 0x21 } else { code }
}

// Whether a record is a space, or a character whose set uses its code.
pub fn plain(unit: Unit) -> bool
    ensures { result ≡ plain_of unit }
{
    let kind = unit.kind;
    if kind <= kind::SPACE {
        return used(set_by(kind, unit.set), code_by(kind, unit.code));
    }
    false
}

// Whether text leaves the directions as they are: there was no mark, and there was text.
pub fn settled(directions: Directions) -> bool
    ensures { result ≡ settled_by_text directions }
{
    if directions.marked {
        return false;
    }
    directions.texted
}
