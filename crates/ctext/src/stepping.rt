// A reader that steps, for C: the caller keeps the string, and this value beside it.
ghost use Rattle.std.specs.Prelude.{◌≡◌};
ghost use Rattle.positions.specs.Stepping.{opened_reader, next_handed};

use positions::stepping::{Handed, Position, hand, opened, position_of, state_in};

// A reader at the start of a string.
#[unsafe(no_mangle)]
pub extern "C" fn ctext_open() -> Position
    ensures { result ≡ opened_reader }
{
    opened()
}

// The next unit or the answer, and where the reader then stands.
#[unsafe(no_mangle)]
pub extern "C" fn ctext_next(s: &[u8], p: Position) -> Handed
    ensures { result ≡ next_handed s.now p }
{
    let t = reader::step(s, p.place, p.count, state_in(p));
    hand(position_of(t.place, t.count, t.state), t.item)
}
