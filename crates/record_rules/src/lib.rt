// What one record of a list is refused for, by itself and by the directions before it: 11, 7, 8 and 9. By value: nothing is stored.
#![tactic(auto)]

ghost use Rattle.std.specs.Prelude.{◌≡◌};
ghost use Rattle.state.specs.Directions.{step_seen};
ghost use Rattle.grammar.specs.Records.{unit_read};
ghost use Rattle.shortest.specs.Records.{fault};

use base::{Refusal, Unit, kind};
use state::directions::{Directions, counts_as_text};

mod own;
pub mod plain;

// What a record does to the directions, or its refusal; its segment stands in the octets lent.
pub fn judge(unit: Unit, segments: &[u8], directions: Directions) -> Result<Directions, Refusal>
    ensures { step_seen result ≡ fault (unit_read segments.now unit) directions }
{
    // returned arm by arm: as the value of the match, what an arm answers is copied octet by octet
    match unit.kind {
        kind::CHARACTER => return own::character(unit.set, unit.code, directions),
        kind::SPACE..kind::SEGMENT => {
            let text = counts_as_text(unit.kind, 0);
            return directions.step(text, unit.kind);
        }
        kind::SEGMENT => {
            return own::segment(
                unit.code,
                unit.start as usize,
                unit.length as usize,
                segments,
                directions,
            );
        }
        _ => Err(Refusal::BadUnit),
    }
}
