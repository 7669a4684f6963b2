// A record in its row of the work room.
ghost use Rattle.std.specs.Prelude.{◌≡◌, ◌+◌, ◌-◌, ◌*◌, ◌<◌, length};
ghost use Rattle.rows.specs.Rows.{tag_of, number_of, with_record};
ghost use Rattle.rows.specs.Stowable.{Stowable, stowable_of};

use base::{Unit, kind};
use rows::{layout, tag};

// Whether a record can stand in a row.
pub fn stowable(unit: Unit) -> bool
    ensures { result ≡ stowable_of unit }
{
    if unit.kind == kind::SEGMENT {
        if unit.code < 0x30 {
            return false;
        }
        if unit.code <= 0x34 {
            return unit.length <= 16383;
        }
        return false;
    }
    unit.kind <= kind::SEGMENT
}

// The tag of a record.
fn tag_of(unit: Unit) -> u8
    requires { Stowable unit }
    ensures { result ≡ tag_of unit }
{
    let kind = unit.kind;
    if kind == kind::CHARACTER {
        return unit.set;
    }
    if kind == kind::SEGMENT {
        return (unit.code - tag::D) as u8;
    }
    tag::KIND + kind
}

// The number beside it.
fn number_of(unit: Unit) -> u16
    requires { Stowable unit }
    ensures { result ≡ number_of unit }
{
    let kind = unit.kind;
    if kind == kind::SEGMENT {
        return unit.length as u16;
    }
    unit.code
}

// Puts a record into row i, where the work room has that row.
pub fn put(unit: Unit, i: usize, work: &mut [u8])
    requires { Stowable unit }
    ensures { work.new ≡ with_record work.old i unit }
{
    if i < work.len() / layout::ROW {
        let at = layout::ROW * i + layout::TAG;
        let tag = tag_of(unit);
        let number = number_of(unit);
        let start = unit.start;
        // the start first: so the compiler makes one store of its four octets
        work[at + 3] = (start / 16777216) as u8;
        work[at + 4] = (start / 65536 % 256) as u8;
        work[at + 5] = (start / 256 % 256) as u8;
        work[at + 6] = (start % 256) as u8;
        work[at] = tag;
        work[at + 1] = (number / 256) as u8;
        work[at + 2] = (number % 256) as u8;
    }
}
