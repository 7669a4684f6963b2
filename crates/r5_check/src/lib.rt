// The check of the octets before the 00, element by element, with what X11R5 does not have refused.
#![tactic(auto)]

ghost use Rattle.std.specs.Prelude.{◌≡◌, ◌+◌, ◌≤◌, length};
ghost use Rattle.base.specs.Answers.{refused_at};
ghost use Rattle.base.specs.Choice.{pick, from};
ghost use Rattle.base.specs.Refusal as refusals;
ghost use Rattle.x11r5.specs.Reading.{mark_by, segment_by, unsupported_at, unended_check_of};

use base::{Answer, Refusal, limit};
use octet_blocks::octet;
use state::State;
use state::elements::{Element, Refused};

// Whether 9B and these octets are a direction mark.
#[tactic(auto, using(base::proofs::Ladder::ladder), unfolding(x11r5::specs::Reading::mark_by))]
fn mark(x: u8, y: u8) -> bool
    ensures { result ≡ mark_by x y }
{
    match x {
        0x5D => true,
        0x31 | 0x32 => y == 0x5D,
        _ => false,
    }
}

// Whether 1B and these octets begin an extended segment.
#[tactic(auto, using(base::proofs::Ladder::ladder), unfolding(x11r5::specs::Reading::segment_by))]
fn segment(x: u8, y: u8, d: u8) -> bool
    ensures { result ≡ segment_by x y d }
{
    matches!((x, y, d), (0x25, 0x2F, 0x30..=0x34))
}

// Whether X11R5 does not have what these octets start with.
#[tactic(auto, using(base::proofs::Ladder::ladder), unfolding(x11r5::specs::Reading::unsupported_at))]
fn unsupported(t: &[u8]) -> bool
    ensures { result ≡ unsupported_at t.now }
{
    match octet(t, 0) {
        0x9B => mark(octet(t, 1), octet(t, 2)),
        0x1B => segment(octet(t, 1), octet(t, 2), octet(t, 3)),
        _ => false,
    }
}

fn unsupported_at(s: &[u8], at: usize) -> bool
    requires { at ≤ length s.now }
    ensures { result ≡ unsupported_at (from at s.now) }
{
    unsupported(&s[at..])
}

// What the base reader refuses at a place is refused as before, or because X11R5 does not have it.
#[tactic(auto, using(base::proofs::Ladder::ladder))]
fn refused_at(s: &[u8], place: usize, refusal: Refusal, offset: usize) -> Answer
    requires { place + offset ≤ length s.now }
    ensures { result ≡ pick (unsupported_at (from place s.now)) (refused_at refusals.unsupported place)
        (refused_at (refusals.number_of refusal) (place + offset)) }
{
    if unsupported_at(s, place) {
        return Refusal::Unsupported.at(place);
    }
    refusal.at(place + offset)
}

// Whether the octets before a 00 are accepted, and what of them is refused.
pub fn check(s: &[u8]) -> Answer
    ensures { result ≡ unended_check_of s.now }
{
    if limit::OCTETS < s.len() {
        return Refusal::TooLong.at(0);
    }
    let mut at: usize = 0;
    let mut count: usize = 0;
    let mut st = State::FRESH;
    while at < s.len() {
        match element::element(s, at, st) {
            Ok(Element::End) => {
                return Answer::accepted(at, count);
            }
            Err(Refused(refusal, offset)) => {
                return refused_at(s, at, refusal, offset);
            }
            Ok(Element::Silent(octets, next)) => {
                at += octets;
                st = next;
            }
            Ok(Element::Found(part, next)) => {
                if unsupported_at(s, at) {
                    return Refusal::Unsupported.at(at);
                }
                at += part.skip + part.octets;
                st = next;
                count += 1;
            }
        }
    }
    Answer::accepted(at, count)
}
