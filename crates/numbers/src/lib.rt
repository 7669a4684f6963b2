// The sets in force by number, and the classes of units.
#![tactic(auto)]

ghost use Rattle.std.specs.Prelude.{◌≡◌, ◌<◌, get_or};
ghost use Rattle.numbers.specs.Numbers.{class_of, places_in_gl, places_in_gr, sets_in_gl, sets_in_gr, second_slot, chosen_by, changes};

pub mod class;
pub mod size;
mod slots;

// The place of GL that serves each class, 5 where none does: of sets as the table of sets has them (`places_tied`). No Option: the loops of `plan`
// and `emit` compare it with the places that there are, and 5 is none of them.
pub static PLACES_IN_GL: [u8; class::ALL] = [0, 5, 1, 5, 5, 5, 5, 5, 5, 5, 5, 5, 2, 3, 4, 0, 0];

// That of GR, 16 where none does.
pub static PLACES_IN_GR: [u8; class::ALL] = [
    16, 0, 16, 1, 2, 3, 4, 5, 6, 7, 8, 9, 10, 11, 12, 16, 16,
];

// The sets that may stand in GL and in GR, by place.
static SETS_IN_GL: [u8; size::GL] = [0, 2, 12, 13, 14];

static SETS_IN_GR: [u8; size::GR] = [1, 3, 4, 5, 6, 7, 8, 9, 10, 11, 12, 13, 14];

// The number at a place of a table, 0 past its end.
fn number_at(table: &[u8], place: usize) -> u8
    ensures { result ≡ get_or table.now place 0 }
{
    table.get(place).copied().unwrap_or(0)
}

// The class of a unit by its row's tag.
#[tactic(auto, using(base::proofs::Ladder::ladder), unfolding(crate::specs::Numbers::class_of, base::specs::Choice::pick))]
pub fn class_of(tag: u8) -> usize
    ensures { (result ≡ class_of tag) × (result < 17) }
{
    // a test, and no lesser of two: where the tag was tested before, the compiler leaves it out
    let x = usize::from(tag);
    if x < class::FREE { x } else { class::FREE }
}

// The place of GL that serves a class, 5 where none does.
pub fn place_in_gl(x: usize) -> usize
    ensures { result ≡ get_or places_in_gl x 0 }
{
    usize::from(number_at(&PLACES_IN_GL, x))
}

// The place of GR that serves a class, 16 where none does.
pub fn place_in_gr(x: usize) -> usize
    ensures { result ≡ get_or places_in_gr x 0 }
{
    usize::from(number_at(&PLACES_IN_GR, x))
}

// The set at a place of GL, 0 at those that are none.
pub fn set_in_gl(g: usize) -> u8
    ensures { (result ≡ get_or sets_in_gl g 0) × (result < 15) }
{
    number_at(&SETS_IN_GL, g)
}

// The set at a place of GR, 0 at the spare ones.
pub fn set_in_gr(r: usize) -> u8
    ensures { (result ≡ get_or sets_in_gr r 0) × (result < 15) }
{
    number_at(&SETS_IN_GR, r)
}

// Where a row keeps what the rest costs after the second designation, for a class that has two.
pub fn second_slot(x: usize, k: usize) -> usize
    ensures { result ≡ second_slot x k }
{
    if x < class::SPACE {
        size::COLUMNS + k / size::COLUMNS
    } else {
        size::COLUMNS + k % size::COLUMNS
    }
}

// The number after the choice for a unit of class x under number k, where u and v are what the rest costs after the first designation
// and after the second.
#[tactic(auto, using(base::proofs::Ladder::ladder), unfolding(crate::specs::Numbers::chosen_by))]
pub fn chosen(x: usize, k: usize, u: u8, v: u8) -> usize
    ensures { result ≡ chosen_by x k u v }
{
    let a = slots::after_first(x, k);
    if a == k {
        return k;
    }
    if x < class::DOUBLE {
        return a;
    }
    let b = slots::after_second(x, k);
    if b == k {
        return k;
    }
    if u <= v { a } else { b }
}

// Whether a unit of class x changes the costs, where last is the class that changed them last.
#[tactic(auto, using(base::proofs::Ladder::ladder), unfolding(crate::specs::Numbers::changes))]
pub fn changed(last: usize, x: usize) -> bool
    ensures { result ≡ changes last x }
{
    // test by test: of one condition the compiler computes all parts at every row of the plan
    if x == class::FREE {
        return false;
    }
    if x == last {
        return false;
    }
    if x == class::SPACE {
        return last != 0;
    }
    true
}
