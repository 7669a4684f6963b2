// The lesser of two sums in each place of the table of costs, column by column.
ghost use Rattle.std.specs.Prelude.{◌≡◌, ℕ, ◌+◌, ◌*◌, ◌≤◌, ◌<◌, min, length, get_or};
ghost use Rattle.table.specs.Table.{ColumnFilled, Columns, SumsFit, from_gl};
ghost use Rattle.numbers.specs.Size as sizes;

use numbers::size;

// In the five rows of column r the lesser of the cost u with a surcharge of p and of the cost v with a surcharge of q.
fn lesser_column(
    u: u8,
    p: [u8; size::GL],
    v: u8,
    q: [u8; size::GL],
    cur: &mut [u8; size::NUMBERS],
    r: usize,
)
    requires { (r < sizes.columns) × ((g : ℕ) → g < sizes.gl → (u + get_or p g 0 ≤ 255) × (v + get_or q g 0 ≤ 255)) }
    ensures { ColumnFilled (λ g. min (u + get_or p g 0) (v + get_or q g 0)) r sizes.gl cur.old cur.new }
{
    for g in 0..size::GL {
        cur[size::COLUMNS * g + r] = (u + p[g]).min(v + q[g]);
    }
}

// The same for the 16 columns, with the costs of a from place i on and those of c from place j on. Column by column, and not row by row:
// so the compiler does the 16 columns of a row at once.
pub fn lesser_costs(
    a: &[u8],
    i: usize,
    p: [u8; size::GL],
    c: &[u8],
    j: usize,
    q: [u8; size::GL],
    cur: &mut [u8; size::NUMBERS],
)
    requires { SumsFit a.now i p × SumsFit c.now j q }
    ensures { Columns (λ g r. min (get_or a.now (i + r) 0 + get_or p g 0)
        (get_or c.now (j + r) 0 + get_or q g 0)) sizes.columns cur.new }
{
    for r in 0..size::COLUMNS {
        lesser_column(a[i + r], p, c[j + r], q, cur, r);
    }
}

// Column r before a unit that GL alone serves, from its costs a with set 0 in GL and b with set 2: p and q are nothing where that set
// serves the unit, and else two designations' price, with which it is never the lesser.
pub fn gl_column(a: u8, p: u8, b: u8, q: u8, three: u8, cur: &mut [u8; size::NUMBERS], r: usize)
    requires { (r < sizes.columns) × (a + p + three ≤ 255) × (b + q + three ≤ 255) }
    ensures { ColumnFilled (λ g. get_or (from_gl a p b q three) g 0) r sizes.gl cur.old cur.new }
{
    let other = (a + p).min(b + q) + three;
    cur[r] = (a + p).min(b + three);
    cur[size::COLUMNS + r] = (b + q).min(a + three);
    cur[32 + r] = other;
    cur[48 + r] = other;
    cur[64 + r] = other;
}
