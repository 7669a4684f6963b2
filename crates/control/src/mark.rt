// Direction marks. `t` is the octets from the start of an element on, so that a place in it is what a refusal tells.
ghost use Rattle.std.specs.Prelude.{◌≡◌};
ghost use Rattle.base.specs.Choice.{from};
ghost use Rattle.state.specs.Elements.{shape_seen};
ghost use Rattle.control.specs.Mark.{begin_of, csi_of};

use base::{Refusal, kind};
use state::elements::{Refused, Shape, bare, octet_after};

// After 9B 31 and 9B 32.
#[tactic(auto, using(state::proofs::Steps::steps), unfolding(crate::specs::Mark::begin_of))]
pub fn begin(t: &[u8], kind: u8) -> Result<Shape, Refused>
    ensures { shape_seen result ≡ begin_of kind (from 2 t.now) }
{
    if octet_after(t, 2)? != 0x5D {
        return Err(Refused(Refusal::Unknown, 2));
    }
    Ok(bare(kind, 3))
}

// After 9B.
#[tactic(auto, using(state::proofs::Steps::steps), unfolding(crate::specs::Mark::csi_of))]
pub fn csi(t: &[u8]) -> Result<Shape, Refused>
    ensures { shape_seen result ≡ csi_of (from 1 t.now) }
{
    match octet_after(t, 1)? {
        0x5D => Ok(bare(kind::REVERT, 2)),
        0x31 => begin(t, kind::LEFT_TO_RIGHT),
        0x32 => begin(t, kind::RIGHT_TO_LEFT),
        _ => Err(Refused(Refusal::Unknown, 1)),
    }
}
