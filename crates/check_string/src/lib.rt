// The check of a whole string.
#![tactic(auto)]

ghost use Rattle.std.specs.Prelude.{◌≡◌};
ghost use Rattle.grammar.specs.Reading.{check_of};
ghost use Rattle.check_string.specs.Checked.{checked_of};

use base::{Answer, Refusal, limit};
use designations::designation_at;
use state::State;
use state::elements::{Refused, Shape};
use stretch::characters::stretch_at;

// What is said of a string with no list lent.
#[derive(Clone, Copy)]
pub struct Checked {
    pub answer: Answer,
}

// Whether a string is accepted, and what of it is refused. Designations and stretches of characters are passed at once, and any other
// element by itself.
fn whole(s: &[u8]) -> Answer
    ensures { result ≡ check_of s.now }
{
    if limit::OCTETS < s.len() {
        return Refusal::TooLong.at(0);
    }
    let mut at: usize = 0;
    let mut count: usize = 0;
    let mut st = State::FRESH;
    while at < s.len() {
        if s[at] == 0x1B {
            if let Ok(d) = designation_at(s, at) {
                at += d.octets;
                st = st.designated(d.side, d.set);
                continue;
            }
        } else {
            let run = stretch_at(s, at, st);
            if 0 < run.octets {
                at += run.octets;
                count += run.units;
                continue;
            }
        }
        match element::shape(s, at, st.sets) {
            Ok(Shape::Ends) => {
                return Answer::accepted(at, count);
            }
            Err(Refused(refusal, offset)) => {
                return refusal.at(at + offset);
            }
            Ok(Shape::Designates(octets, side, set)) => {
                at += octets;
                st = st.designated(side, set);
            }
            Ok(Shape::Gives(part)) => {
                match st.directions.step(part.text, part.kind) {
                    Err(refusal) => {
                        return refusal.at(at);
                    }
                    Ok(next) => {
                        at += part.skip + part.octets;
                        st = st.directed(next);
                        count += 1;
                    }
                }
            }
        }
    }
    Answer::accepted(at, count)
}

// The check of a string.
pub fn check(s: &[u8]) -> Checked
    ensures { result ≡ checked_of s.now }
{
    Checked { answer: whole(s) }
}

// Its answer alone, for callers that ask no more.
pub fn answer(s: &[u8]) -> Answer
    ensures { result ≡ check_of s.now }
{
    check(s).answer
}
