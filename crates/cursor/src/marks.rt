// Direction marks of an accepted string, by their second octet alone.
ghost use Rattle.std.specs.Prelude.{◌≡◌, ◌+◌, ◌<◌, ◌≤◌};
ghost use Rattle.cursor.specs.Cursor.{state_in, element_turn, mark_turn, marked_turn};

use crate::{Cursor, Turn, by_element, cursor_at};
use base::{Unit, kind, limit};

// A mark of a kind and so many octets; where the direction rule refuses it, what its element says.
fn mark_turn(s: &[u8], c: Cursor, kind: u8, octets: u32) -> Turn
    requires { (c.place ≤ 65535) × (octets ≤ 3) }
    ensures { result ≡ mark_turn c.place kind octets (state_in c) (element_turn s.now c) }
{
    let st = c.state();
    match st.directions.step(false, kind) {
        Ok(next) => Turn {
            cursor: cursor_at(c.place + octets as usize, st.directed(next)),
            unit: Unit {
                kind,
                set: 0,
                code: 0,
                start: (c.place % 0x1_0000_0000) as u32,
                length: octets,
                direction: next.in_force() as u16,
                depth: next.depth as u16,
            },
        },
        Err(_) => by_element(s, c),
    }
}

// The mark at a cursor, and any other unit by its element.
pub fn marked(s: &[u8], c: Cursor) -> Turn
    ensures { result ≡ marked_turn s.now c }
{
    let at = c.place;
    if limit::OCTETS < s.len() || s.len() <= at || s[at] != 0x9B || s.len() <= at + 1 {
        return by_element(s, c);
    }
    match s[at + 1] {
        0x31 => mark_turn(s, c, kind::LEFT_TO_RIGHT, 3),
        0x32 => mark_turn(s, c, kind::RIGHT_TO_LEFT, 3),
        _ => mark_turn(s, c, kind::REVERT, 2),
    }
}
