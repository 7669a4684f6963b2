// The plan of a writing. From the last row to the first, it has what the rest costs from all sets in force, and keeps in each row what that
// row's choice will compare.
#![tactic(auto)]

ghost use Rattle.std.specs.Prelude.{◌≡◌, length};
ghost use Rattle.state.specs.State.{fresh};
ghost use Rattle.rows.specs.Rows.{rows_of, units_in};
ghost use Rattle.shortest.specs.Writing.{cost};
ghost use Rattle.plan.specs.Plan.{Planned};

use numbers::{class, size};
use rows::layout;

mod costs;
mod sums;

// Plans n rows from the last to the first, and answers what their units cost from the fresh state.
pub fn plan(work: &mut [u8], n: usize, segments: &[u8]) -> usize
    ensures { (result ≡ cost (units_in segments.now work.old 0 (rows_of n (length work.old))) fresh.sets)
        × Planned segments.now work.old (rows_of n (length work.old)) 0 work.new }
{
    let m = segments.len();
    let mut fours = [4u8; 32];
    fours[15] = 0;
    let mut threes = [3u8; 32];
    threes[15] = 0;
    let prices = costs::Prices { fours, threes };
    let mut cur = [0u8; size::NUMBERS];
    let mut base: usize = 0;
    let mut last = class::FREE;
    for i in (0..rows::rows_of(n, work.len())).rev() {
        let row = layout::ROW * i;
        let tag = work[row + layout::TAG];
        let size = rows::size_at(tag, work, row, m);
        let x = numbers::class_of(tag);
        table::keep(x, &cur, work, row);
        let taken = costs::unit_before(last, x, &prices, &mut cur);
        base += size + taken.base;
        last = taken.last;
    }
    base + usize::from(cur[1])
}
