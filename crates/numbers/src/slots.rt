// The numbers after the designations that serve a class.
ghost use Rattle.std.specs.Prelude.{◌≡◌};
ghost use Rattle.numbers.specs.Numbers.{after_first, after_second};

use crate::{class, size};

// The number of the sets in force after the first designation that serves class x, the preferred one.
#[tactic(auto, using(base::proofs::Ladder::ladder), unfolding(crate::specs::Numbers::after_first))]
pub fn after_first(x: usize, k: usize) -> usize
    ensures { result ≡ after_first x k }
{
    match x {
        ..class::SPACE => {
            let l = crate::place_in_gl(x);
            if l < size::GL {
                l * size::COLUMNS + k % size::COLUMNS
            } else {
                k / size::COLUMNS * size::COLUMNS + crate::place_in_gr(x)
            }
        }
        class::SPACE => k % size::COLUMNS,
        _ => k,
    }
}

// The number after the second. No one function with the first: they ask the sides in another order, so it would take a flag and test it.
#[tactic(auto, using(base::proofs::Ladder::ladder), unfolding(crate::specs::Numbers::after_second))]
pub fn after_second(x: usize, k: usize) -> usize
    ensures { result ≡ after_second x k }
{
    match x {
        ..class::SPACE => {
            let r = crate::place_in_gr(x);
            if r < size::GR {
                k / size::COLUMNS * size::COLUMNS + r
            } else {
                crate::place_in_gl(x) * size::COLUMNS + k % size::COLUMNS
            }
        }
        class::SPACE => size::COLUMNS + k % size::COLUMNS,
        _ => k,
    }
}
