// A whole element: its shape, and then the direction rule.
#![tactic(auto)]

ghost use Rattle.std.specs.Prelude.{◌≡◌, ◌<◌, length};
ghost use Rattle.base.specs.Choice.{from};
ghost use Rattle.state.specs.Directions.{step_by};
ghost use Rattle.state.specs.Elements.{shape_by, shape_seen, element_by, element_seen};
ghost use Rattle.element.specs.Element.{shape_of, stepped_of, directed_of, element_of};

use base::{Reason, Refusal, kind};
use state::directions::Directions;
use state::elements::{Element, Part, Refused, Shape, bare};
use state::{Sets, State};

// The shape of the element at a place before the string's end.
#[tactic(auto, using(crate::proofs::Steps::shaping, crate::proofs::Steps::on_delete), unfolding(crate::specs::Element::shape_of, crate::specs::Start::start_of, crate::specs::Start::begun_by))]
fn begun(s: &[u8], at: usize, sets: Sets) -> Result<Shape, Refused>
    requires { at < length s.now }
    ensures { shape_seen result ≡ shape_of (from at s.now) sets }
{
    let b = s[at];
    match b {
        0x1B => control::escape::escape(&s[at..]),
        0x9B => control::mark::csi(&s[at..]),
        0x09 => Ok(bare(kind::TAB, 1)),
        0x0A => Ok(bare(kind::NEWLINE, 1)),
        0x20..=0x7E | 0xA0..=0xFF => text::text(s, at + 1, b, sets),
        _ => Err(Refused(Refusal::Unused, 0)),
    }
}

// The shape of the element at a place.
#[tactic(auto, using(crate::proofs::Steps::on_shape_end), unfolding(crate::specs::Element::shape_of))]
pub fn shape(s: &[u8], at: usize, sets: Sets) -> Result<Shape, Refused>
    ensures { shape_seen result ≡ shape_of (from at s.now) sets }
{
    if s.len() <= at {
        return Ok(Shape::Ends);
    }
    begun(s, at, sets)
}

// A unit whose step by the direction rule is known.
#[tactic(auto, unfolding(crate::specs::Element::stepped_of))]
pub fn stepped<R: Reason>(
    part: Part,
    st: State,
    step: Result<Directions, R>,
) -> Result<Element, Refused<R>>
    ensures { element_by R.number result ≡ stepped_of part st (step_by R.number step) }
{
    match step {
        Ok(directions) => Ok(Element::Found(part, st.directed(directions))),
        Err(reason) => Err(Refused(reason, 0)),
    }
}

// A shape under a state: a designation changes the sets alone, and a unit, by the direction rule, the directions alone.
#[tactic(auto, unfolding(crate::specs::Element::directed_of))]
pub fn directed<R: Reason>(
    shape: Result<Shape, Refused<R>>,
    st: State,
) -> Result<Element, Refused<R>>
    ensures { element_by R.number result ≡ directed_of (shape_by R.number shape) st }
{
    match shape? {
        Shape::Ends => Ok(Element::End),
        Shape::Designates(octets, side, set) => Ok(Element::Silent(
            octets,
            st.designated(side, set),
        )),
        Shape::Gives(part) => {
            let step = st.directions.step(part.text, part.kind);
            // no `map_err(R::of)`: the borrow checker does not cover it yet
            match step {
                Ok(directions) => stepped(part, st, Ok(directions)),
                Err(refusal) => stepped(part, st, Err(R::of(refusal))),
            }
        }
    }
}

// The element at a place, under a state.
pub fn element(s: &[u8], at: usize, st: State) -> Result<Element, Refused>
    ensures { element_seen result ≡ element_of (from at s.now) st }
{
    directed(shape(s, at, st.sets), st)
}
