// The shortest form of a string: what the program writes.
#![tactic(auto)]

ghost use Rattle.std.specs.Prelude.{◌≡◌, length};
ghost use Rattle.base.specs.Refusal.{accepted};
ghost use Rattle.grammar.specs.Reading.{check_of};
ghost use Rattle.units.specs.Records.{records_of};
ghost use Rattle.write.specs.Stowed.{Stowed};
ghost use Rattle.rewrite.specs.Shortest.{shortest_answer, shortest_output};

use base::{Answer, refusal};
use state::State;

// Puts the n units of an accepted string into their rows of the work room: none of them offends, so that they are not checked. By
// `next_unit`, and not by the cursor of `read`, which the compiler puts into `read` whole only where nobody else calls it.
fn stow(s: &[u8], n: usize, work: &mut [u8])
    requires { ((check_of s.now).number ≡ accepted) × (n ≡ length (records_of s.now)) }
    ensures { Stowed s.now (records_of s.now) n work.old work.new }
{
    let mut at: usize = 0;
    let mut st = State::FRESH;
    for i in 0..n {
        let Ok(given) = units::next_unit(s, at, st) else {
            return;
        };
        check_list::put(given.unit, i, work);
        at = given.place;
        st = given.state;
    }
}

// Writes the shortest string that reads as s does, or answers why not: the refusal of s, 12 where the work room is too short for its
// units, or 10. What the work room holds after is left open; it keeps its length.
pub fn shortest(s: &[u8], work: &mut [u8], out: &mut [u8]) -> Answer
    ensures { (result ≡ shortest_answer s.now (length work.old) (length out.old))
        × (out.new ≡ shortest_output s.now (length work.old) out.old)
        × (length work.new ≡ length work.old) }
{
    let a = check_string::answer(s);
    if a.number != refusal::ACCEPTED {
        return a;
    }
    let n = a.count;
    stow(s, n, work);
    write::finish(check_list::begin(), n, s, work, out)
}
