// Escape sequences. `t` is the octets from the start of an element on, so that a place in it is what a refusal tells.
ghost use Rattle.std.specs.Prelude.{◌≡◌};
ghost use Rattle.base.specs.Choice.{from};
ghost use Rattle.state.specs.Elements.{shape_seen};
ghost use Rattle.control.specs.Escape.{intermediates_of, designation_of, multi_octet_of, escape_of};

use base::Refusal;
use charset::{FORM_94, FORM_94X94, FORM_96, NO_SET, Side};
use segment::extended;
use state::elements::{Refused, Shape, octet_after};

// The octets after the first intermediate of a designation, from the place k on.
#[tactic(auto, using(base::proofs::Ladder::after, crate::proofs::Steps::passing), unfolding(crate::specs::Escape::intermediates_of))]
pub fn intermediates(t: &[u8], k: usize) -> Result<Shape, Refused>
    ensures { shape_seen result ≡ intermediates_of k (from k t.now) }
{
    for i in k..t.len() {
        match t[i] {
            0x20..=0x2F => {}
            0x40..=0x7E => return Err(Refused(Refusal::NotApproved, i)),
            _ => return Err(Refused(Refusal::Unknown, i)),
        }
    }
    Err(Refused(Refusal::Cut, k.max(t.len())))
}

// After 1B 28, 1B 29, 1B 2D, 1B 24 28, 1B 24 29: the octets from the place k on.
#[tactic(auto, using(crate::proofs::Steps::on_final, crate::proofs::Steps::on_no_final, state::proofs::Steps::steps), unfolding(crate::specs::Escape::designation_of))]
pub fn designation(t: &[u8], k: usize, form: u8, side: Side) -> Result<Shape, Refused>
    ensures { shape_seen result ≡ designation_of k form side (from k t.now) }
{
    match octet_after(t, k)? {
        0x21..=0x23 => intermediates(t, k + 1),
        last @ 0x40..=0x7E => {
            let set = charset::set_of(form, side, last);
            if NO_SET <= set {
                return Err(Refused(Refusal::NotApproved, k));
            }
            Ok(Shape::Designates(k + 1, side, set))
        }
        _ => Err(Refused(Refusal::Unknown, k)),
    }
}

// After 1B 24.
#[tactic(auto, using(state::proofs::Steps::steps), unfolding(crate::specs::Escape::multi_octet_of))]
pub fn multi_octet(t: &[u8]) -> Result<Shape, Refused>
    ensures { shape_seen result ≡ multi_octet_of (from 2 t.now) }
{
    match octet_after(t, 2)? {
        0x28 => designation(t, 3, FORM_94X94, Side::GL),
        0x29 => designation(t, 3, FORM_94X94, Side::GR),
        _ => Err(Refused(Refusal::Unknown, 2)),
    }
}

// After 1B.
#[tactic(auto, using(state::proofs::Steps::steps), unfolding(crate::specs::Escape::escape_of))]
pub fn escape(t: &[u8]) -> Result<Shape, Refused>
    ensures { shape_seen result ≡ escape_of (from 1 t.now) }
{
    match octet_after(t, 1)? {
        0x28 => designation(t, 2, FORM_94, Side::GL),
        0x29 => designation(t, 2, FORM_94, Side::GR),
        0x2D => designation(t, 2, FORM_96, Side::GR),
        0x24 => multi_octet(t),
        0x25 => extended(t),
        0x23 => Err(Refused(Refusal::Version, 1)),
        _ => Err(Refused(Refusal::Unknown, 1)),
    }
}
