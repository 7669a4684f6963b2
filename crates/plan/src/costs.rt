// The least costs from all numbers: what a unit put before does to them.
ghost use Rattle.std.specs.Prelude.{◌≡◌, ℕ, ◌+◌, ◌*◌, ◌<◌, length};
ghost use Rattle.table.specs.Table.{Columns};
ghost use Rattle.plan.specs.Costs.{surcharges, OfGL, InGR, OnBoth, least_by, Smooth, CostsAhead, Turned};
ghost use Rattle.numbers.specs.Class as classes;
ghost use Rattle.numbers.specs.Size as sizes;

use numbers::{PLACES_IN_GL, PLACES_IN_GR, class, size};

// A designation's price of four octets, and of three: 31 times, but nothing in the middle, and then once more. So from 15 - r on there is
// nothing at place r, and the price at the other places.
#[derive(Drop)]
pub struct Prices {
    pub fours: [u8; 32],
    pub threes: [u8; 32],
    ghost by_four: { fours ≡ surcharges 4 },
    ghost by_three: { threes ≡ surcharges 3 },
}

// The least costs of a unit that GL alone serves: of class 0, of class 2, or a space, which both sets serve. In place, since only the first
// two rows are read, column by column.
fn gl_costs(x: usize, three: u8, cur: &mut [u8; size::NUMBERS])
    requires { OfGL x × ((y : ℕ) → y < classes.all → Smooth y cur.old) × (three ≡ 3) }
    ensures { Columns (λ g r. least_by x cur.old (sizes.columns * g + r)) sizes.columns cur.new }
{
    // set 0 serves all three but class 2, and set 2 all but class 0
    let p = table::unserved(x, 2);
    let q = table::unserved(x, 0);
    for r in 0..size::COLUMNS {
        crate::sums::gl_column(cur[r], p, cur[size::COLUMNS + r], q, three, cur, r);
    }
}

// Those of a character whose set has a place on each side. The prices from 15 - r on with the column's costs are what GR's place r costs.
fn both_costs(
    x: usize,
    l: usize,
    r: usize,
    next: &[u8; size::NUMBERS],
    prices: &Prices,
    cur: &mut [u8; size::NUMBERS],
)
    requires { Smooth x next.now × OnBoth x l r }
    ensures { Columns (λ g r. least_by x next.now (sizes.columns * g + r)) sizes.columns cur.new }
{
    // Read from the table and not written out: with a constant the loop of lesser_costs is unrolled and not done 16 at a time.
    let four = prices.fours[31];
    let i = size::COLUMNS * l;
    let j = 15 - r;
    let p = table::charges(four, l);
    let v = table::column(next, r);
    crate::sums::lesser_costs(next, i, p, &prices.fours, j, v, cur);
}

// Those of a character whose set has a place in GR alone.
fn gr_costs(
    x: usize,
    r: usize,
    next: &[u8; size::NUMBERS],
    prices: &Prices,
    cur: &mut [u8; size::NUMBERS],
)
    requires { Smooth x next.now × InGR x r }
    ensures { Columns (λ g r. least_by x next.now (sizes.columns * g + r)) sizes.columns cur.new }
{
    let j = 15 - r;
    let v = table::column(next, r);
    crate::sums::lesser_costs(&prices.threes, j, v, &prices.threes, j, v, cur);
}

// The least costs, but for the unit's own octets, of a unit of class x before what cur has.
fn costs_before(x: usize, prices: &Prices, cur: &mut [u8; size::NUMBERS])
    requires { (x < classes.free) × ((y : ℕ) → y < classes.all → Smooth y cur.old) }
    ensures { Columns (λ g r. least_by x cur.old (sizes.columns * g + r)) sizes.columns cur.new }
{
    let l = usize::from(PLACES_IN_GL[x]);
    let r = usize::from(PLACES_IN_GR[x]);
    if size::GR <= r {
        gl_costs(x, prices.threes[31], cur);
        return;
    }
    let next = *cur;
    if l < size::GL {
        both_costs(x, l, r, &next, prices, cur);
    } else {
        gr_costs(x, r, &next, prices, cur);
    }
}

// What was taken from the costs, and the class that changed them last.
#[derive(Clone, Copy)]
pub struct Taken {
    pub base: usize,
    pub last: usize,
}

// The costs with a unit of class x before, where last is the class that changed them last.
pub fn unit_before(last: usize, x: usize, prices: &Prices, cur: &mut [u8; size::NUMBERS]) -> Taken
    requires { CostsAhead x cur.old }
    ensures { Turned last x cur.old result.base result.last cur.new }
{
    if numbers::changed(last, x) {
        costs_before(x, prices, cur);
        if cur[1] <= 200 {
            return Taken { base: 0, last: x };
        }
        table::lower(cur);
        return Taken { base: 128, last: x };
    }
    Taken { base: 0, last }
}
