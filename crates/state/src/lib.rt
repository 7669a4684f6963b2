// The state of a reading, and what an element does to it.
#![tactic(auto)]

ghost use Rattle.std.specs.Prelude.{◌≡◌};
ghost use Rattle.state.specs.State.{on, put, designated_of, directed_to};

use charset::Side;

pub mod directions;
pub mod elements;

use crate::directions::Directions;

// The sets in force: that in GL, and that in GR.
#[derive(Clone, Copy)]
pub struct Sets {
    pub gl: u8,
    pub gr: u8,
}

impl Sets {
    // The sets once a set stands on a side.
    pub fn with(self, side: Side, set: u8) -> Sets
        ensures { result ≡ put (on side set) self }
    {
        match side {
            Side::GL => Sets { gl: set, ..self },
            Side::GR => Sets { gr: set, ..self },
        }
    }
}

#[derive(Clone, Copy)]
pub struct State {
    pub directions: Directions,
    pub sets: Sets,
}

impl State {
    // The state that every string starts from: ASCII in GL, Latin-1 in GR, no direction open.
    pub const FRESH: State = State {
        directions: Directions::NONE,
        sets: Sets { gl: 0, gr: 3 },
    };

    // The state after a designation of a set to a side.
    pub fn designated(self, side: Side, set: u8) -> State
        ensures { result ≡ designated_of side set self }
    {
        State {
            sets: self.sets.with(side, set),
            ..self
        }
    }

    // The state with other directions open.
    pub fn directed(self, directions: Directions) -> State
        ensures { result ≡ directed_to directions self }
    {
        State { directions, ..self }
    }
}
