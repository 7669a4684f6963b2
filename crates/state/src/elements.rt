// What an element is: its shape, which its octets and the sets in force decide, and the state after it.
ghost use Rattle.std.specs.Prelude.{◌≡◌, ◌<◌, ◌≤◌, Ok, MatchResult, length, get_or};
ghost use Rattle.state.specs.Elements.{unit, cut_after, shape_seen};

use crate::State;
use crate::directions::counts_as_text;
use base::Refusal;
use charset::Side;

// A unit as it stands in its element: how many octets of the element stand before the unit's own, and how many are its own; its
// code, kind and set; and whether the direction rule counts it as text.
#[derive(Clone, Copy)]
pub struct Part {
    pub skip: usize,
    pub octets: usize,
    pub code: u16,
    pub kind: u8,
    pub set: u8,
    pub text: bool,
}

// Why an element is refused, and how far from its start the place is. The reason is a refusal, but for a caller that has numbers of its own.
#[derive(Clone, Copy, PartialEq, Eq)]
pub struct Refused<R = Refusal>(pub R, pub usize);

// What stands at a place before the direction rule is asked: it neither knows nor changes the directions.
#[derive(Clone, Copy)]
pub enum Shape {
    // nothing is left
    Ends,
    // a designation: how many octets it has, and the set that it puts on a side
    Designates(usize, Side, u8),
    // a unit
    Gives(Part),
}

#[derive(Clone, Copy)]
pub enum Element {
    // nothing is left
    End,
    // an element that gives no unit, how many octets it has, and the state after it
    Silent(usize, State),
    // a unit, and the state after it
    Found(Part, State),
}

// The octet of an element that stands after k others; where there is none the element is cut there.
pub fn octet_after(t: &[u8], k: usize) -> Result<u8, Refused>
    ensures { MatchResult result (λ b. (k < length t.now) × (b ≡ get_or t.now k 0)) (λ e. (length t.now ≤ k) × (e ≡ cut_after k)) }
{
    t.get(k).copied().ok_or(Refused(Refusal::Cut, k))
}

// A unit with no set and no code, whose octets are the whole element.
pub fn bare(kind: u8, octets: usize) -> Shape
    ensures { shape_seen (Ok result) ≡ unit kind 0 0 octets }
{
    Shape::Gives(Part {
        skip: 0,
        octets,
        code: 0,
        kind,
        set: 0,
        text: counts_as_text(kind, 0),
    })
}
