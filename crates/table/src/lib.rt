// A table of 80 costs, octet by octet: five rows, for GL's places, by 16 columns, for GR's; and what a row of the work room keeps of it.
#![tactic(auto)]

ghost use Rattle.std.specs.Prelude.{◌≡◌, cond, ◌+◌, ◌-◌, ◌*◌, ◌%◌, ◌≤◌, ◌<◌, min, eqb, length, get_or};
ghost use Rattle.table.specs.Table.{FilledTo, PlacesFilled, Charges, ColumnRead, RowRead, Kept};
ghost use Rattle.numbers.specs.Size as sizes;

use numbers::{class, size};
use rows::layout;

// What a set costs a class more: two designations' price where it does not serve it, else nothing.
pub fn unserved(x: usize, class: usize) -> u8
    ensures { result ≡ cond (eqb x class) 6 0 }
{
    if x == class { 6 } else { 0 }
}

// The price in each row, but nothing in the row of a place. Written out, as the next: in a loop each place is stored by itself, and the
// processor waits where the array is then read whole.
pub fn charges(price: u8, place: usize) -> [u8; size::GL]
    ensures { Charges price place result }
{
    let charge = |g: usize| if g == place { 0 } else { price };
    [charge(0), charge(1), charge(2), charge(3), charge(4)]
}

// The costs of the five rows in a column.
pub fn column(costs: &[u8; size::NUMBERS], r: usize) -> [u8; size::GL]
    ensures { ColumnRead costs.now (r % sizes.columns) result }
{
    let q = r % size::COLUMNS;
    [
        costs[q],
        costs[size::COLUMNS + q],
        costs[32 + q],
        costs[48 + q],
        costs[64 + q],
    ]
}

// The 16 costs from a place on.
fn row_of(costs: &[u8; size::NUMBERS], from: usize) -> [u8; size::COLUMNS]
    requires { from + sizes.columns ≤ sizes.numbers }
    ensures { RowRead costs.now from result }
{
    let mut row = [0u8; size::COLUMNS];
    for r in 0..size::COLUMNS {
        row[r] = costs[from + r];
    }
    row
}

// Keeps 16 costs, from a place on. Through an array of its own, which cannot lie in the work room: so the compiler stores all 16 at once, where
// by `copy_from_slice` it tests first whether the two overlap.
fn keep_row(cur: &[u8; size::NUMBERS], from: usize, work: &mut [u8], at: usize)
    requires { (from + sizes.columns ≤ sizes.numbers) × (at + sizes.columns ≤ length work.old) }
    ensures { PlacesFilled (λ r. get_or cur.now (from + r) 0) at sizes.columns work.old work.new }
{
    let row = row_of(cur, from);
    for r in 0..size::COLUMNS {
        work[at + r] = row[r];
    }
}

// Keeps the costs of the five rows in a column.
fn keep_column(cur: &[u8; size::NUMBERS], r: usize, work: &mut [u8], at: usize)
    requires { (r < sizes.columns) × (at + sizes.gl ≤ length work.old) }
    ensures { PlacesFilled (λ g. get_or cur.now (sizes.columns * g + r) 0) at sizes.gl work.old work.new }
{
    for g in 0..size::GL {
        work[at + g] = cur[size::COLUMNS * g + r];
    }
}

// Keeps in the row of a unit of class x the costs that its choice compares, where the room has that row.
pub fn keep(x: usize, cur: &[u8; size::NUMBERS], work: &mut [u8], row: usize)
    ensures { Kept x cur.now work.old row work.new }
{
    if x < class::DOUBLE {
        return;
    }
    // two tests, of which the first does not change from row to row, and no saturating_sub of the row
    if work.len() < layout::TAG || work.len() - layout::TAG < row {
        return;
    }
    if x < class::SPACE {
        keep_row(cur, size::COLUMNS * (x - 10), work, row);
        keep_column(cur, x - 2, work, row + size::COLUMNS);
    } else if x == class::SPACE {
        keep_row(cur, 0, work, row);
        keep_row(cur, size::COLUMNS, work, row + size::COLUMNS);
    }
}

// Takes 128 from each cost, and leaves 0 of those below.
pub fn lower(cur: &mut [u8])
    ensures { FilledTo (λ k. k) (λ k. get_or cur.old k 0 - 128) (length cur.old) cur.old cur.new }
{
    for v in cur.iter_mut() {
        *v = v.saturating_sub(128);
    }
}
