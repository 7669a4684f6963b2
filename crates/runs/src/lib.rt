// Runs: the stretches of characters and spaces of one side, and what is shown of each; `stepping` has them one after the other.
#![tactic(auto)]

ghost use Rattle.std.specs.Prelude.{◌≡◌, ◌≤◌};
ghost use Rattle.pieces.specs.Pieces.{viewed};
ghost use Rattle.runs.specs.Runs.{width_of, shown_of, no_run};

use base::{Answer, direction};
use charset::FORM_94X94;
use pieces::Piece;

pub mod stepping;

// Where a run starts and ends in the string, the answer, and the set, octet width and direction in force.
// An answer beside the numbers, and no Result: the layout is C's (`ctext_run`).
#[repr(C)]
#[derive(Clone, Copy)]
pub struct Bounds {
    pub start: usize,
    pub end: usize,
    pub answer: Answer,
    pub set: u8,
    pub width: u8,
    pub direction: u8,
}

// How many octets a character of a set has.
#[tactic(auto, using(base::proofs::Ladder::ladder), unfolding(crate::specs::Runs::width_of))]
pub fn width(set: u8) -> u8
    ensures { result ≡ width_of set }
{
    if charset::form_of(set) == FORM_94X94 {
        2
    } else {
        1
    }
}

pub fn no_run(answer: Answer) -> Bounds
    ensures { result ≡ no_run answer }
{
    Bounds {
        start: 0,
        end: 0,
        answer,
        set: 0,
        width: 0,
        direction: direction::NONE,
    }
}

// A run of a string of n octets.
#[tactic(auto, using(base::proofs::Ladder::ladder), unfolding(crate::specs::Runs::shown_of, pieces::specs::Pieces::set_in))]
fn shown(n: usize, run: Piece) -> Bounds
    requires { run.start ≤ run.end }
    ensures { result ≡ shown_of n (viewed run) }
{
    let set = pieces::set_in(run.state.sets, run.kind.number());
    Bounds {
        start: run.start,
        end: run.end,
        answer: Answer::accepted(n, run.end - run.start),
        set,
        width: width(set),
        direction: run.state.directions.in_force(),
    }
}
