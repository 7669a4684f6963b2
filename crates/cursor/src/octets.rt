// The records of units of one octet and of two, by their octets and the directions around them alone: one constructor for each width.
ghost use Rattle.std.specs.Prelude.{◌≡◌};
ghost use Rattle.cursor.specs.Cursor.{kind_at, if_graphic, one_of, two_of};

use base::{Unit, kind};

// The kinds of a space, a tab and a newline are one more than the last three bits of their octets.
#[tactic(auto, using(base::proofs::Ladder::ladder), unfolding(crate::specs::Cursor::kind_at))]
fn kind_at(b: u8) -> u8
    ensures { result ≡ kind_at b }
{
    if 0x20 < b { kind::CHARACTER } else { b % 8 + 1 }
}

// A space, a tab and a newline have neither set nor code.
#[tactic(auto, using(base::proofs::Ladder::ladder), unfolding(crate::specs::Cursor::if_graphic))]
fn if_graphic(b: u8, x: u8) -> u8
    ensures { result ≡ if_graphic b x }
{
    if b <= 0x20 { 0 } else { x }
}

// A character of this set, a space, a tab or a newline.
pub fn one_octet(at: usize, b: u8, set: u8, direction: u16, depth: u16) -> Unit
    ensures { result ≡ one_of at b set direction depth }
{
    Unit {
        kind: kind_at(b),
        set: if_graphic(b, set),
        code: if_graphic(b, b % 128) as u16,
        start: (at % 0x1_0000_0000) as u32,
        length: 1,
        direction,
        depth,
    }
}

// A character of this set.
pub fn two_octets(at: usize, b: u8, d: u8, set: u8, direction: u16, depth: u16) -> Unit
    ensures { result ≡ two_of at b d set direction depth }
{
    Unit {
        kind: kind::CHARACTER,
        set,
        code: (b % 128) as u16 * 256 + (d % 128) as u16,
        start: (at % 0x1_0000_0000) as u32,
        length: 2,
        direction,
        depth,
    }
}
