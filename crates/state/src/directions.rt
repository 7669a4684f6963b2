// The direction rule, as steps of the open directions.
ghost use Rattle.std.specs.Prelude.{◌≡◌};
ghost use Rattle.state.specs.Directions.{counts_as_text, written_of, deeper_of, begun_of, reverted_of, step_of, step_seen, in_force_of};

use base::{Refusal, direction, kind, limit};

// The open directions, one binary digit for each, the last opened lowest and 1 for right-to-left; how many are open; whether a
// direction mark was read, and whether text was.
#[derive(Clone, Copy)]
pub struct Directions {
    pub levels: u64,
    pub depth: u8,
    pub marked: bool,
    pub texted: bool,
}

// Whether a unit counts as text for the direction rule, by its kind and the octets of an extended segment's text: a character, a space, a segment
// with text.
pub fn counts_as_text(kind: u8, text: usize) -> bool
    ensures { result ≡ counts_as_text kind text }
{
    kind < kind::TAB || (kind == kind::SEGMENT && 0 < text)
}

impl Directions {
    pub const NONE: Directions = Directions {
        levels: 0,
        depth: 0,
        marked: false,
        texted: false,
    };

    // Text.
    pub fn written(self) -> Result<Directions, Refusal>
        ensures { step_seen result ≡ written_of self }
    {
        if self.marked && self.depth == 0 {
            return Err(Refusal::Direction);
        }
        Ok(Directions {
            texted: true,
            ..self
        })
    }

    // One more direction, 0 left-to-right and 1 right-to-left.
    pub fn deeper(self, way: u64) -> Result<Directions, Refusal>
        ensures { step_seen result ≡ deeper_of way self }
    {
        if self.depth < limit::DEPTH {
            return Ok(Directions {
                depth: self.depth + 1,
                levels: self.levels % 0x8000_0000_0000_0000 * 2 + way % 2,
                marked: true,
                ..self
            });
        }
        Err(Refusal::TooDeep)
    }

    // A mark that begins a direction.
    pub fn begun(self, way: u64) -> Result<Directions, Refusal>
        ensures { step_seen result ≡ begun_of way self }
    {
        if self.marked {
            return self.deeper(way);
        }
        if self.texted {
            return Err(Refusal::Direction);
        }
        self.deeper(way)
    }

    // A mark that reverts.
    pub fn reverted(self) -> Result<Directions, Refusal>
        ensures { step_seen result ≡ reverted_of self }
    {
        if self.depth == 0 {
            return Err(Refusal::Direction);
        }
        Ok(Directions {
            depth: self.depth - 1,
            levels: self.levels / 2,
            marked: true,
            ..self
        })
    }

    // A unit of a kind; text says whether it counts as text.
    pub fn step(self, text: bool, kind: u8) -> Result<Directions, Refusal>
        ensures { step_seen result ≡ step_of text kind self }
    {
        if text {
            return self.written();
        }
        match kind {
            kind::LEFT_TO_RIGHT => self.begun(0),
            kind::RIGHT_TO_LEFT => self.begun(1),
            kind::REVERT => self.reverted(),
            _ => Ok(self),
        }
    }

    // The direction in force.
    pub fn in_force(self) -> u8
        ensures { result ≡ in_force_of self }
    {
        if self.depth == 0 {
            return direction::NONE;
        }
        if self.levels % 2 == 0 {
            return direction::LEFT_TO_RIGHT;
        }
        direction::RIGHT_TO_LEFT
    }
}
