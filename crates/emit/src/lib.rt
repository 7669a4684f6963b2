// Writing the units of the rows: the plan, the answer, and where it accepts the shortest string, from the first row to the last.
#![tactic(auto)]

ghost use Rattle.std.specs.Prelude.{◌≡◌, [], ◌∷◌, ◌+◌, ◌*◌, ◌%◌, ◌≤◌, ◌<◌, length, get_or};
ghost use Rattle.state.specs.State.{fresh};
ghost use Rattle.grammar.specs.Units.{octets};
ghost use Rattle.shortest.specs.Writing.{writing};
ghost use Rattle.rows.specs.Layout as layouts;
ghost use Rattle.rows.specs.Rows.{unit_from, units_in};
ghost use Rattle.numbers.specs.Numbers.{places_in_gl, places_in_gr, second_slot, chosen_by};
ghost use Rattle.unit_octets.specs.Octets.{Written, side_of};
ghost use Rattle.emit.specs.Emit.{rows_answer, rows_output, Ready};
ghost use Rattle.numbers.specs.Size as sizes;
ghost use Rattle.numbers.specs.Class as classes;

use base::{Answer, Refusal, limit};
use numbers::{PLACES_IN_GL, PLACES_IN_GR, size};
use rows::{layout, tag};

// The number after the choice for a unit of class x under number k, by what its row keeps. Where l or r, the places of GL and GR that serve
// the class, stands, it is k at once.
fn choose(x: usize, k: usize, l: usize, r: usize, work: &[u8], row: usize) -> usize
    requires { (x < classes.all) × (k < sizes.numbers) × (l ≡ get_or places_in_gl x 0) × (r ≡ get_or places_in_gr x 0)
        × (row + layouts.tag ≤ length work.now) }
    ensures { result ≡ chosen_by x k (get_or work.now (row + k % sizes.columns) 0) (get_or work.now (row + second_slot x k) 0) }
{
    if k / size::COLUMNS == l {
        return k;
    }
    if k % size::COLUMNS == r {
        return k;
    }
    let slot = numbers::second_slot(x, k);
    numbers::chosen(x, k, work[row + k % size::COLUMNS], work[row + slot])
}

// Writes N octets, and answers the next place.
fn put<const N: usize>(octets: [u8; N], out: &mut [u8], at: usize) -> usize
    requires { at + length octets ≤ length out.old }
    ensures { Written out.old at octets.entry result out.new }
{
    out[at..at + N].copy_from_slice(&octets);
    at + N
}

// Writes the unit of the row that starts at a place, on a side, and answers the next place.
fn put_row(work: &[u8], row: usize, left: bool, segments: &[u8], out: &mut [u8], at: usize) -> usize
    requires { (row + layouts.row ≤ length work.now)
        × (at + length (octets (side_of left) (unit_from segments.now work.now row)) ≤ length out.old) }
    ensures { Written out.old at (octets (side_of left) (unit_from segments.now work.now row)) result
        out.new }
{
    let tag = work[row + layout::TAG];
    // two octets first: the compiler makes one comparison of the test
    if unit_octets::two_octets(tag) {
        let high = unit_octets::on_side(left, work[row + layout::HIGH]);
        let low = unit_octets::on_side(left, work[row + layout::LOW]);
        return put([high, low], out, at);
    }
    if tag < tag::TAB {
        let octet = unit_octets::single(tag, left, work[row + layout::LOW]);
        return put([octet], out, at);
    }
    if tag < tag::LEFT_TO_RIGHT {
        return put([unit_octets::control(tag)], out, at);
    }
    unit_octets::put_other(tag, work, row, segments, out, at)
}

// Writes n rows by their plan from the output's first place on, and answers the next place.
fn emit(work: &[u8], n: usize, segments: &[u8], out: &mut [u8]) -> usize
    requires { (n ≤ 65535) × (layouts.row * n ≤ length work.now) × Ready segments.now work.now n
        × (length (writing (units_in segments.now work.now 0 n) fresh.sets) ≤ length out.old) }
    ensures { Written out.old 0 (writing (units_in segments.now work.now 0 n) fresh.sets) result out.new }
{
    // copied: of a static the compiler computes the address at every row
    let in_gl = PLACES_IN_GL;
    let in_gr = PLACES_IN_GR;
    let mut k: usize = 1;
    let mut at: usize = 0;
    for i in 0..n {
        let row = layout::ROW * i;
        let x = numbers::class_of(work[row + layout::TAG]);
        let l = usize::from(in_gl[x]);
        let r = usize::from(in_gr[x]);
        let j = choose(x, k, l, r, work, row);
        let a = unit_octets::put_change(k, j, out, at);
        let left = j / size::COLUMNS == l;
        at = put_row(work, row, left, segments, out, a);
        k = j;
    }
    at
}

// Plans and writes the units that n rows hold.
pub fn write_rows(work: &mut [u8], n: usize, segments: &[u8], out: &mut [u8]) -> Answer
    ensures { (result ≡ rows_answer segments.now work.old n (length out.old))
        × (out.new ≡ rows_output segments.now work.old n out.old)
        × (length work.new ≡ length work.old) }
{
    if limit::UNITS < n {
        return Refusal::TooLong.at(0);
    }
    if work.len() < layout::ROW * (n + 1) {
        return Refusal::NoWorkRoom.at(0);
    }
    let count = plan::plan(work, n, segments);
    if limit::OCTETS < count {
        return Refusal::TooLong.at(0);
    }
    if out.len() < count {
        return Answer::no_room(count);
    }
    emit(work, n, segments, out);
    Answer::accepted(n, count)
}
