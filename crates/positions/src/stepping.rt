// Where a reader stands, and what a step of it hands out, laid out for C.
ghost use Rattle.std.specs.Prelude.{◌≡◌};
ghost use Rattle.positions.specs.Stepping.{state_unpacked, opened_reader, packed_reader, item_handed};

use base::{Answer, Unit};
use reader::Item;
use state::directions::Directions;
use state::{Sets, State};

// Where a reader stands: its place, the units handed out before, the sets in force and the open directions. A flag is 0 for no, and
// anything else for yes. Its fields, and no State, here and in `running`: the layout is C's.
#[repr(C)]
#[derive(Clone, Copy)]
pub struct Position {
    pub levels: u64,
    pub place: usize,
    pub count: usize,
    pub gl: u8,
    pub gr: u8,
    pub depth: u8,
    pub marked: u8,
    pub texted: u8,
}

// The position after a step; and where `given` is 1 the unit that was handed out, else the answer.
// A flag beside two values, and no Result: the layout is C's (`ctext_next`).
#[repr(C)]
#[derive(Clone, Copy)]
pub struct Handed {
    pub position: Position,
    pub answer: Answer,
    pub unit: Unit,
    pub given: u8,
}

#[tactic(auto, unfolding(crate::specs::Stepping::state_unpacked))]
pub fn state_in(p: Position) -> State
    ensures { result ≡ state_unpacked p }
{
    State {
        directions: Directions {
            levels: p.levels,
            depth: p.depth,
            marked: p.marked != 0,
            texted: p.texted != 0,
        },
        sets: Sets { gl: p.gl, gr: p.gr },
    }
}

#[tactic(auto, unfolding(crate::specs::Stepping::packed_reader, crate::specs::Stepping::flag_of, base::specs::Choice::pick))]
pub fn position_of(place: usize, count: usize, st: State) -> Position
    ensures { result ≡ packed_reader place count st }
{
    let State { directions, sets } = st;
    Position {
        levels: directions.levels,
        place,
        count,
        gl: sets.gl,
        gr: sets.gr,
        depth: directions.depth,
        marked: u8::from(directions.marked),
        texted: u8::from(directions.texted),
    }
}

// A reader at the start of a string.
pub fn opened() -> Position
    ensures { result ≡ opened_reader }
{
    position_of(0, 0, State::FRESH)
}

#[tactic(auto, unfolding(crate::specs::Stepping::item_handed))]
pub fn hand(p: Position, item: Item) -> Handed
    ensures { result ≡ item_handed p item }
{
    match item {
        Ok(unit) => Handed {
            position: p,
            answer: Answer::accepted(0, 0),
            unit,
            given: 1,
        },
        Err(answer) => Handed {
            position: p,
            answer,
            unit: Unit::BLANK,
            given: 0,
        },
    }
}
