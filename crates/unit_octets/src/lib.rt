// The octets of characters, designations, segments and marks, by values; and those of all but characters, stored where they have room.
#![tactic(auto)]

ghost use Rattle.std.specs.Prelude.{◌≡◌, false, ◌+◌, ◌-◌, ◌%◌, ◌≤◌, eqb, ltb, length, take, drop};
ghost use Rattle.base.specs.Choice.{pick};
ghost use Rattle.state.specs.State.{on};
ghost use Rattle.charset.specs.declared.Side.TheVariants.{GL};
ghost use Rattle.grammar.specs.Units.{octets, designation, top, ext};
ghost use Rattle.shortest.specs.Writing.{designated};
ghost use Rattle.rows.specs.Rows.{high_octet, low_octet, start_from, mark_tagged, other_tagged};
ghost use Rattle.rows.specs.Tag as tags;
ghost use Rattle.numbers.specs.Numbers.{change};
ghost use Rattle.unit_octets.specs.Octets.{Written, Stored, side_of, sign_of};

use charset::{FORM_96, final_of, form_of, octets_of};
use numbers::size;
use rows::tag;

pub mod stores;

// A code's octet on a side.
pub fn on_side(left: bool, b: u8) -> u8
    ensures { result ≡ top (side_of left) + b % 128 }
{
    if left { b % 128 } else { 128 + b % 128 }
}

// Whether a tag is that of a character of two octets.
#[tactic(auto, using(base::proofs::Ladder::ladder))]
pub fn two_octets(tag: u8) -> bool
    ensures { result ≡ pick (ltb tag tags.double) false (ltb tag tags.space) }
{
    matches!(tag, tag::DOUBLE..tag::SPACE)
}

// The octet of a space, or of a character of one octet on a side: the two in one, since words and spaces alternate.
#[tactic(auto, using(base::proofs::Ladder::ladder))]
pub fn single(tag: u8, left: bool, b: u8) -> u8
    ensures { result ≡ pick (eqb tag tags.space) 0x20 (top (side_of left) + b % 128) }
{
    if tag == tag::SPACE {
        0x20
    } else {
        on_side(left, b)
    }
}

// The octet of a tab or a newline.
#[tactic(auto, using(base::proofs::Ladder::ladder))]
pub fn control(tag: u8) -> u8
    ensures { result ≡ pick (eqb tag tags.tab) 0x09 0x0A }
{
    if tag == tag::TAB { 0x09 } else { 0x0A }
}

// The octet of a designation that says the side and the form.
#[tactic(auto, using(base::proofs::Ladder::ladder), unfolding(crate::specs::Octets::sign_of))]
fn sign(left: bool, set: u8) -> u8
    ensures { result ≡ sign_of left set }
{
    if left {
        0x28
    } else if form_of(set) == FORM_96 {
        0x2D
    } else {
        0x29
    }
}

// Stores the designation of a set, and answers the next place.
pub fn put_designation(left: bool, set: u8, out: &mut [u8], at: usize) -> usize
    ensures { Stored out.old at (designation (on (side_of left) set)) result out.new }
{
    let s = sign(left, set);
    let last = final_of(set);
    if octets_of(set) == 2 {
        stores::put([0x1B, 0x24, s, last], out, at)
    } else {
        stores::put([0x1B, s, last], out, at)
    }
}

// Stores the designation that makes number k number j, and answers the next place.
pub fn put_change(k: usize, j: usize, out: &mut [u8], at: usize) -> usize
    ensures { Stored out.old at (designated (change k j)) result out.new }
{
    if j == k {
        return at;
    }
    if j / size::COLUMNS == k / size::COLUMNS {
        return put_designation(false, numbers::set_in_gr(j % size::COLUMNS), out, at);
    }
    put_designation(true, numbers::set_in_gl(j / size::COLUMNS), out, at)
}

// Stores a tab, a newline or a direction mark, and answers the next place.
fn put_mark(tag: u8, out: &mut [u8], at: usize) -> usize
    ensures { Stored out.old at (octets GL (mark_tagged tag)) result out.new }
{
    match tag {
        tag::TAB => stores::put([0x09], out, at),
        tag::NEWLINE => stores::put([0x0A], out, at),
        tag::LEFT_TO_RIGHT => stores::put([0x9B, 0x31, 0x5D], out, at),
        tag::RIGHT_TO_LEFT => stores::put([0x9B, 0x32, 0x5D], out, at),
        _ => stores::put([0x9B, 0x5D], out, at),
    }
}

// The part of a segment of n octets that start at a place of those lent, as far as it lies in them.
fn part(segments: &[u8], start: usize, n: usize) -> &[u8]
    ensures { result.now ≡ take n (drop start segments.now) }
{
    let rest = &segments[start.min(segments.len())..];
    &rest[..n.min(rest.len())]
}

// Copies a part. Octet by octet: the slice method that copies calls `memmove`, which the library for C would then need from outside.
fn copy(part: &[u8], out: &mut [u8], at: usize) -> usize
    requires { at + length part.now ≤ length out.old }
    ensures { Written out.old at part.now result out.new }
{
    let n = part.len();
    for k in 0..n {
        out[at + k] = part[k];
    }
    at + n
}

// Stores an extended segment of d and a part. Not put into its caller: there it takes registers of the loop over the rows (`emit`).
#[inline(never)]
fn put_segment(d: u8, part: &[u8], out: &mut [u8], at: usize) -> usize
    requires { length part.now ≤ 16383 }
    ensures { Stored out.old at (octets GL (ext d part.now)) result out.new }
{
    let n = part.len();
    if out.len() < at || out.len() - at < 6 + n {
        return at;
    }
    let lead = [
        0x1B,
        0x25,
        0x2F,
        d,
        (128 + n / 128) as u8,
        (128 + n % 128) as u8,
    ];
    let at = stores::put(lead, out, at);
    copy(part, out, at)
}

// Stores the segment or the mark of the row that starts at a place, and answers the next place.
pub fn put_other(
    tag: u8,
    work: &[u8],
    row: usize,
    segments: &[u8],
    out: &mut [u8],
    at: usize,
) -> usize
    ensures { Stored out.old at (octets GL (other_tagged segments.now tag (high_octet work.now row)
        (low_octet work.now row) (start_from work.now row))) result out.new }
{
    match tag {
        tag::SEGMENT..tag::SPARE => {
            let n = rows::count_at(work, row);
            let start = rows::start_at(work, row);
            let d = (tag::D + u16::from(tag)) as u8;
            put_segment(d, part(segments, start, n), out, at)
        }
        _ => put_mark(tag, out, at),
    }
}
