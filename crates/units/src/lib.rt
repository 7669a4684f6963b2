// The next unit of a string, from a place and a state on: elements that give no unit are passed.
#![tactic(auto)]

ghost use Rattle.std.specs.Prelude.{◌≡◌, ◌+◌, ◌≤◌, Err};
ghost use Rattle.base.specs.Refusal.{number_if};
ghost use Rattle.units.specs.Records.{record_of};
ghost use Rattle.units.specs.Next.{Stops, next_of, outcome_seen};

use base::{Refusal, Unit, limit};
use state::State;
use state::directions::Directions;
use state::elements::{Element, Part, Refused};

// A unit, and the place and the state after it.
#[derive(Clone, Copy)]
pub struct Given {
    pub unit: Unit,
    pub place: usize,
    pub state: State,
}

// No further unit: what is refused, which is nothing at the end, and its place; and where the reading stops, at the end or at the start of the refused
// element, with the state there.
#[derive(Clone, Copy)]
pub struct Stopped {
    pub refusal: Option<Refusal>,
    pub place: usize,
    pub start: usize,
    pub state: State,
}

fn no_unit(refusal: Option<Refusal>, place: usize, start: usize, state: State) -> Stopped
    ensures { outcome_seen (Err result) ≡ Stops (number_if refusal) place start state }
{
    Stopped {
        refusal,
        place,
        start,
        state,
    }
}

// The record of a unit whose element starts at a place, under the directions after it.
fn record(part: Part, at: usize, directions: Directions) -> Unit
    requires { at + (part.skip + part.octets) ≤ 65535 }
    ensures { result ≡ record_of part at directions }
{
    let start = at + part.skip;
    Unit {
        kind: part.kind,
        set: part.set,
        code: part.code,
        start: start as u32,
        length: part.octets as u32,
        direction: directions.in_force() as u16,
        depth: directions.depth as u16,
    }
}

// The next unit from a place and a state on.
#[tactic(auto, using(base::proofs::Ladder::ladder, base::proofs::Ladder::after, crate::proofs::Turn::gives_end, crate::proofs::Turn::gives_refused, crate::proofs::Turn::gives_silent, crate::proofs::Turn::gives_found), unfolding(crate::specs::Next::next_of))]
pub fn next_unit(s: &[u8], place: usize, state: State) -> Result<Given, Stopped>
    ensures { outcome_seen result ≡ next_of s.now place state }
{
    if limit::OCTETS < s.len() {
        return Err(no_unit(Some(Refusal::TooLong), 0, place, state));
    }
    let mut at = place;
    let mut st = state;
    loop {
        match element::element(s, at, st) {
            Ok(Element::End) => {
                return Err(no_unit(None, at, at, st));
            }
            Err(Refused(refusal, offset)) => {
                return Err(no_unit(Some(refusal), at + offset, at, st));
            }
            Ok(Element::Silent(octets, next)) => {
                at += octets;
                st = next;
            }
            Ok(Element::Found(part, next)) => {
                return Ok(Given {
                    unit: record(part, at, next.directions),
                    place: at + (part.skip + part.octets),
                    state: next,
                });
            }
        }
    }
}
