// The runs of a string one after the other, in one pass: a step from run to run.
ghost use Rattle.std.specs.Prelude.{◌≡◌, ◌≤◌};
ghost use Rattle.base.specs.Choice.{from};
ghost use Rattle.element.specs.Element.{element_of};
ghost use Rattle.pieces.specs.Pieces.{viewed};
ghost use Rattle.runs.specs.Runs.{shown_of};
ghost use Rattle.runs.specs.Steps.{first_position, stays, run_step_to, stop_at, run_from, known_of, checked_from, next_run_of};

use crate::Bounds;
use base::{Answer, Refusal, limit, refusal};
use designations::designation_at;
use pieces::Piece;
use run_ends::text_end;
use state::State;
use state::elements::Refused;
use stretch::characters::settled;

// A place of a string and the state there, and whether the whole string is known to be accepted.
#[derive(Clone, Copy)]
pub struct RunPosition {
    pub place: usize,
    pub state: State,
    pub checked: bool,
}

// The run, or the answer where none is shown, and the position after it.
#[derive(Clone, Copy)]
pub struct RunStep {
    pub position: RunPosition,
    pub run: Bounds,
}

// The position before the first run of a string, which is not checked yet.
pub fn first_position() -> RunPosition
    ensures { result ≡ first_position }
{
    RunPosition {
        place: 0,
        state: State::FRESH,
        checked: false,
    }
}

// A refusal, and the position stays.
fn stays(p: RunPosition, answer: Answer) -> RunStep
    ensures { result ≡ stays p answer }
{
    RunStep {
        position: p,
        run: crate::no_run(answer),
    }
}

// A step to a place of a string that is taken for accepted.
fn step_to(place: usize, state: State, run: Bounds) -> RunStep
    ensures { result ≡ run_step_to place state run }
{
    RunStep {
        position: RunPosition {
            place,
            state,
            checked: true,
        },
        run,
    }
}

// The answer where an element is reached and no run is left.
pub fn stopped(s: &[u8], at: usize, st: State) -> Answer
    ensures { result ≡ (stop_at at st (element_of (from at s.now) st)).run.answer }
{
    match element::element(s, at, st) {
        Err(Refused(refusal, offset)) => refusal.at(at + offset),
        Ok(_) => Refusal::BadUnit.at(0),
    }
}

// No run is left where an element is reached.
fn stop_at(s: &[u8], at: usize, st: State) -> RunStep
    ensures { result ≡ stop_at at st (element_of (from at s.now) st) }
{
    step_to(at, st, crate::no_run(stopped(s, at, st)))
}

// A step that shows a run of a string of n octets, in the state after it.
fn step_over(n: usize, run: Piece) -> RunStep
    requires { run.start ≤ run.end }
    ensures { result ≡ run_step_to run.end run.state (shown_of n (viewed run)) }
{
    step_to(run.end, run.state, crate::shown(n, run))
}

// The first run from a place and a state on. Designations, and characters and spaces that leave the state as it is, are passed by their octets, and
// any other element by itself.
pub fn run_from(s: &[u8], place: usize, state: State) -> RunStep
    ensures { result ≡ run_from s.now place state }
{
    let mut at = place;
    let mut st = state;
    while at < s.len() {
        let b = s[at];
        if b == 0x1B {
            if let Ok(d) = designation_at(s, at) {
                at += d.octets;
                st = st.designated(d.side, d.set);
                continue;
            }
        } else if settled(st.directions) {
            let kind = pieces::side_kind(b);
            let end = text_end(s, at, st.sets, kind.number());
            if at < end {
                let run = Piece {
                    start: at,
                    end,
                    state: st,
                    kind,
                };
                return step_over(s.len(), run);
            }
        }
        let Some(next) = pieces::piece_at(s, at, st) else {
            return stop_at(s, at, st);
        };
        let after = next.state;
        if next.kind.is_run() {
            let end = text_end(s, next.end, after.sets, next.kind.number());
            return step_over(s.len(), Piece { end, ..next });
        }
        at = next.end;
        st = after;
    }
    stop_at(s, at, st)
}

// The answer of the check, which is not asked for where it is known that it accepts.
#[tactic(auto, using(base::proofs::Ladder::ladder), unfolding(crate::specs::Steps::known_of))]
pub fn known(s: &[u8], checked: bool) -> Answer
    ensures { result ≡ known_of s.now checked }
{
    if checked {
        Answer::accepted(0, 0)
    } else {
        check_string::answer(s)
    }
}

// The first run from a position on; the string is checked where that is not done yet.
#[tactic(auto, using(base::proofs::Ladder::ladder), unfolding(crate::specs::Steps::checked_from))]
fn checked_from(s: &[u8], p: RunPosition) -> RunStep
    ensures { result ≡ checked_from s.now p }
{
    let answer = known(s, p.checked);
    if answer.number == refusal::ACCEPTED {
        return run_from(s, p.place, p.state);
    }
    stays(p, answer)
}

// The next run from a position, and the position after it. The whole string is checked in the first step alone, and each octet is then read
// once, or twice.
#[tactic(auto, using(base::proofs::Ladder::ladder), unfolding(crate::specs::Steps::next_run_of))]
pub fn next_run(s: &[u8], p: RunPosition) -> RunStep
    ensures { result ≡ next_run_of s.now p }
{
    if limit::OCTETS < s.len() {
        return stays(p, Refusal::TooLong.at(0));
    }
    if reader::may_stand(s.len(), p.place, p.state) {
        return checked_from(s, p);
    }
    stays(p, Refusal::BadUnit.at(0))
}
