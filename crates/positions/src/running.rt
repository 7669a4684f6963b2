// Where a reader of runs stands, and what a step of it hands out, laid out for C.
ghost use Rattle.std.specs.Prelude.{◌≡◌};
ghost use Rattle.positions.specs.Running.{position_in, packed_runs, opened_runs};

use base::Answer;
use runs::Bounds;
use runs::stepping::RunPosition;
use state::directions::Directions;
use state::{Sets, State};

// Where a reader of runs stands: its place, the sets in force and the open directions, and whether the whole string is known to be
// accepted. A flag is 0 for no, and anything else for yes.
#[repr(C)]
#[derive(Clone, Copy)]
pub struct RunReader {
    pub levels: u64,
    pub place: usize,
    pub gl: u8,
    pub gr: u8,
    pub depth: u8,
    pub marked: u8,
    pub texted: u8,
    pub checked: u8,
}

// The reader after a step, and the run or the answer where none is shown.
#[repr(C)]
#[derive(Clone, Copy)]
pub struct RunHanded {
    pub reader: RunReader,
    pub run: Bounds,
}

// The reader after several runs, and the answer: how many were stored, or why none could be.
#[repr(C)]
#[derive(Clone, Copy)]
pub struct RunsHanded {
    pub reader: RunReader,
    pub answer: Answer,
}

#[tactic(auto, unfolding(crate::specs::Running::position_in))]
pub fn position_in(p: RunReader) -> RunPosition
    ensures { result ≡ position_in p }
{
    RunPosition {
        place: p.place,
        state: State {
            directions: Directions {
                levels: p.levels,
                depth: p.depth,
                marked: p.marked != 0,
                texted: p.texted != 0,
            },
            sets: Sets { gl: p.gl, gr: p.gr },
        },
        checked: p.checked != 0,
    }
}

#[tactic(auto, unfolding(crate::specs::Running::packed_runs, crate::specs::Stepping::flag_of, base::specs::Choice::pick))]
pub fn reader_of(p: RunPosition) -> RunReader
    ensures { result ≡ packed_runs p }
{
    let State { directions, sets } = p.state;
    RunReader {
        levels: directions.levels,
        place: p.place,
        gl: sets.gl,
        gr: sets.gr,
        depth: directions.depth,
        marked: u8::from(directions.marked),
        texted: u8::from(directions.texted),
        checked: u8::from(p.checked),
    }
}

// A reader of runs at the start of a string, which is not checked yet.
pub fn opened() -> RunReader
    ensures { result ≡ opened_runs }
{
    reader_of(runs::stepping::first_position())
}
