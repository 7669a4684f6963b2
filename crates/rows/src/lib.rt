// The rows of the work room: where the units stand while their writing is planned.
#![tactic(auto)]

ghost use Rattle.std.specs.Prelude.{◌≡◌, ◌+◌, ◌-◌, ◌*◌, ◌≤◌, get_or};
ghost use Rattle.rows.specs.Rows.{start_from, high_octet, low_octet, count_of, part_of, rows_of, size_of, part_from};
ghost use Rattle.rows.specs.Layout as layouts;
ghost use Rattle.base.specs.Limit as limits;

use base::limit;

pub mod layout;
pub mod tag;

// The octet at a place of the row that starts at a place of the room, 0 beyond the room's end. One test, for the rest is the same for all places of
// a row.
fn octet_at(work: &[u8], row: usize, place: usize) -> u8
    ensures { result ≡ get_or work.now (row + place) 0 }
{
    if place < work.len().saturating_sub(row) {
        work[row + place]
    } else {
        0
    }
}

// The n of the segment of the row that starts at a place.
pub fn count_at(work: &[u8], row: usize) -> usize
    ensures { (result ≡ count_of (high_octet work.now row) (low_octet work.now row)) × (result ≤ 16383) }
{
    let high = octet_at(work, row, layout::HIGH);
    let low = octet_at(work, row, layout::LOW);
    usize::from(high % 64) * 256 + usize::from(low)
}

// Where its octets start.
pub fn start_at(work: &[u8], row: usize) -> usize
    ensures { result ≡ start_from work.now row }
{
    let a = octet_at(work, row, layout::START);
    let b = octet_at(work, row, layout::START + 1);
    let c = octet_at(work, row, layout::START + 2);
    let d = octet_at(work, row, layout::START + 3);
    u32::from_be_bytes([a, b, c, d]) as usize
}

// The octets of a segment's part that lie in the m octets in which the segments stand.
pub fn part_of(n: usize, start: usize, m: usize) -> usize
    ensures { result ≡ part_of n start m }
{
    n.min(m.saturating_sub(start))
}

// The octets of the unit of a tag in the row that starts at a place, where the segments stand in m octets.
#[tactic(auto, using(base::proofs::Ladder::ladder), unfolding(crate::specs::Rows::size_of))]
pub fn size_at(tag: u8, work: &[u8], row: usize, m: usize) -> usize
    ensures { (result ≡ size_of tag (part_from m work.now row)) × (result ≤ 16389) }
{
    // ifs, and no match by ranges: of that the compiler asks first for the one mark that stands alone, at every row
    if tag < tag::DOUBLE {
        1
    } else if tag < tag::SPACE {
        2
    } else if tag < tag::LEFT_TO_RIGHT {
        1
    } else if tag < tag::REVERT {
        3
    } else if tag < tag::SEGMENT {
        2
    } else if tag < tag::SPARE {
        let n = count_at(work, row);
        let start = start_at(work, row);
        6 + part_of(n, start, m)
    } else {
        2
    }
}

// The rows that are written, of n in a room of m octets.
#[tactic(auto, using(base::proofs::Ladder::ladder), unfolding(crate::specs::Rows::rows_of))]
pub fn rows_of(n: usize, m: usize) -> usize
    ensures { (result ≡ rows_of n m) × (result ≤ limits.units) × (layouts.row * result ≤ m) }
{
    if n <= limit::UNITS && layout::ROW * n <= m {
        n
    } else {
        0
    }
}
