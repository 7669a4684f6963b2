// The X11R5 writer, one record at a time. Its pen goes through a list twice: first it checks, and counts where the room might not do, and
// then, if nothing is refused, it stores.
#![tactic(auto)]

ghost use Rattle.std.specs.Prelude.{◌≡◌, ◌+◌, length};
ghost use Rattle.base.specs.Refusal.{number_of};
ghost use Rattle.r5_pen.specs.Pen.{looking_at, ample_for, looked_first, begun_at, counted, stayed_at, moved_to, stopped_by, turned_over};
ghost use Rattle.r5_pen.specs.Pen.{passed_text, passed_by, looked_by, checked_by};
ghost use Rattle.r5_pen.specs.Pen.{stored_text, output_text, stored_by, output_by, turn_of, output_of, finish_answer, finish_output};

use base::{Answer, Refusal, Unit, kind, limit, refusal};
use charset::{Side, may_use};
use unit_octets::{put_designation, stores};

// The octets counted or stored so far, the index of the next record, number and place of the first refusal, the sets in GL and GR, and
// whether it stores.
#[derive(Clone, Copy)]
pub struct Pen {
    pub at: usize,
    pub index: usize,
    pub place: usize,
    pub number: u8,
    pub gl: u8,
    pub gr: u8,
    pub stores: bool,
}

impl Pen {
    // Before the first record, to store.
    pub const STORING: Pen = Pen {
        at: 0,
        index: 0,
        place: 0,
        number: refusal::ACCEPTED,
        gl: 0,
        gr: 3,
        stores: true,
    };
}

// How many of n records are to be looked at before the pen begins: all, where they have room in any case, and else none.
#[tactic(auto, unfolding(crate::specs::Pen::looked_first, base::specs::Choice::pick))]
pub fn looked_first(n: usize, room: usize) -> usize
    ensures { result ≡ looked_first n room }
{
    if ample(n, room) { n } else { 0 }
}

// Where the pen begins in a list of n records, of which so many at the start are refused for nothing. They need not be looked at where all have room in any
// case, and counting begins with the first.
#[tactic(auto, unfolding(crate::specs::Pen::begun_at, base::specs::Choice::pick))]
pub fn begin(run: usize, n: usize, room: usize) -> Pen
    ensures { result ≡ begun_at run n room }
{
    if !ample(n, room) {
        looking_at(0)
    } else if run < n {
        looking_at(run)
    } else {
        Pen::STORING
    }
}

// Before a record, to check it, with nothing counted.
fn looking_at(index: usize) -> Pen
    ensures { result ≡ looking_at index }
{
    Pen {
        index,
        stores: false,
        ..Pen::STORING
    }
}

// So many octets more; once the count is over the limit it stays.
#[tactic(auto, unfolding(crate::specs::Pen::counted, base::specs::Choice::pick))]
fn count(sum: usize, more: u8) -> usize
    ensures { result ≡ counted sum more }
{
    if limit::OCTETS < sum {
        sum
    } else {
        sum + more as usize
    }
}

// The pen at the next record, with the same sets.
#[tactic(auto, unfolding(crate::specs::Pen::stayed_at, base::specs::Choice::pick))]
fn stayed(pen: Pen, at: usize, index: usize) -> Pen
    ensures { result ≡ stayed_at pen at index }
{
    Pen { at, index, ..pen }
}

// The pen at the next record, with a set on a side.
#[tactic(auto, unfolding(crate::specs::Pen::moved_to, base::specs::Choice::pick))]
fn moved(pen: Pen, left: bool, set: u8, at: usize, index: usize) -> Pen
    ensures { result ≡ moved_to pen left set at index }
{
    let gl = r5_units::standing(left, set, pen.gl);
    let gr = r5_units::standing(left, pen.gr, set);
    Pen {
        at,
        index,
        gl,
        gr,
        ..pen
    }
}

// A record is refused: no other of the n is looked at.
#[tactic(auto, unfolding(crate::specs::Pen::stopped_by, base::specs::Choice::pick))]
fn stopped(pen: Pen, refusal: Refusal, n: usize) -> Pen
    ensures { result ≡ stopped_by pen (number_of refusal) n }
{
    Pen {
        index: n,
        place: pen.index,
        number: refusal.number(),
        ..pen
    }
}

// After the last of n records the storing begins, if the octets are within the limit and have room with the 00.
#[tactic(auto, unfolding(crate::specs::Pen::turned_over, base::specs::Choice::pick))]
fn turned_over(pen: Pen, n: usize, room: usize) -> Pen
    ensures { result ≡ turned_over pen n room }
{
    if pen.index < n || limit::OCTETS < pen.at || room <= pen.at {
        pen
    } else {
        Pen::STORING
    }
}

// A character of a set is counted, with the designation of the set where it stands on neither side.
#[tactic(auto, unfolding(crate::specs::Pen::passed_text, base::specs::Choice::pick))]
fn pass_text(pen: Pen, set: u8, index: usize) -> Pen
    ensures { result ≡ passed_text pen set index }
{
    if r5_units::stands(set, pen.gl, pen.gr) {
        let at = count(pen.at, r5_units::width(set));
        return stayed(pen, at, index);
    }
    let at = count(pen.at, r5_units::designated_width(set));
    moved(pen, may_use(Side::GL, set), set, at, index)
}

// A record that is refused for nothing: its octets are counted.
#[tactic(auto, unfolding(crate::specs::Pen::passed_by, base::specs::Choice::pick))]
fn pass(pen: Pen, unit: Unit, index: usize) -> Pen
    ensures { result ≡ passed_by pen unit index }
{
    if unit.kind <= kind::SPACE {
        let set = r5_units::text_set(unit, pen.gl);
        return pass_text(pen, set, index);
    }
    let at = count(pen.at, 1);
    stayed(pen, at, index)
}

// Whether n units have room, whatever they are, within the limit and in the output: each has at most six octets, with its designation.
#[tactic(auto, unfolding(crate::specs::Pen::ample_for, base::specs::Choice::pick))]
fn ample(n: usize, room: usize) -> bool
    ensures { result ≡ ample_for n room }
{
    n <= 10922 && 6 * n < room
}

// A record that is refused for nothing: its octets are counted, but where all have room in any case.
#[tactic(auto, unfolding(crate::specs::Pen::looked_by, base::specs::Choice::pick))]
fn look(pen: Pen, unit: Unit, index: usize, n: usize, room: usize) -> Pen
    ensures { result ≡ looked_by pen unit index n room }
{
    if ample(n, room) {
        stayed(pen, pen.at, index)
    } else {
        pass(pen, unit, index)
    }
}

// A record is checked and looked at; the index is that of the next.
#[tactic(auto, unfolding(crate::specs::Pen::checked_by, base::specs::Choice::pick))]
fn check(pen: Pen, unit: Unit, index: usize, n: usize, segments: &[u8], room: usize) -> Pen
    ensures { result ≡ checked_by pen unit index n segments.now room }
{
    match r5_units::refusal_of(unit, segments) {
        Some(refusal) => stopped(pen, refusal, n),
        None => turned_over(look(pen, unit, index, n, room), n, room),
    }
}

// A character is stored where it has room, with the designation of its set where that stands on neither side.
fn store_text(pen: Pen, set: u8, code: u16, index: usize, out: &mut [u8]) -> Pen
    ensures { (result ≡ stored_text pen set code index (length out.old))
        × (out.new ≡ output_text pen set code out.old) }
{
    if r5_units::stands(set, pen.gl, pen.gr) {
        let at = r5_units::put(set, code, pen.gl == set, out, pen.at);
        return stayed(pen, at, index);
    }
    let left = may_use(Side::GL, set);
    let a = put_designation(left, set, out, pen.at);
    let b = r5_units::put(set, code, left, out, a);
    moved(pen, left, set, b, index)
}

// A record's octets are stored where they have room.
fn store(pen: Pen, unit: Unit, index: usize, out: &mut [u8]) -> Pen
    ensures { (result ≡ stored_by pen unit index (length out.old)) × (out.new ≡ output_by pen unit out.old) }
{
    if unit.kind <= kind::SPACE {
        let set = r5_units::text_set(unit, pen.gl);
        let code = r5_units::text_code(unit);
        return store_text(pen, set, code, index, out);
    }
    let at = stores::put([r5_units::control(unit.kind)], out, pen.at);
    stayed(pen, at, index)
}

// The next of n records, to which the pen points; its segment stands in the octets lent.
#[tactic(auto, unfolding(crate::specs::Pen::turn_of, crate::specs::Pen::output_of, base::specs::Choice::pick))]
pub fn turn(pen: Pen, unit: Unit, n: usize, segments: &[u8], out: &mut [u8]) -> Pen
    ensures { (result ≡ turn_of pen unit n segments.now (length out.old))
        × (out.new ≡ output_of pen unit n out.old) }
{
    if n <= pen.index {
        pen
    } else if pen.stores {
        store(pen, unit, pen.index + 1, out)
    } else {
        check(pen, unit, pen.index + 1, n, segments, out.len())
    }
}

// The answer for a list of n records; where it accepts the 00 is stored.
#[tactic(auto, unfolding(crate::specs::Pen::finish_answer, crate::specs::Pen::finish_output, base::specs::Choice::pick))]
pub fn finish(pen: Pen, n: usize, out: &mut [u8]) -> Answer
    ensures { (result ≡ finish_answer pen n (length out.old)) × (out.new ≡ finish_output pen n out.old) }
{
    if limit::UNITS < n {
        return Refusal::TooLong.at(0);
    }
    if pen.number != refusal::ACCEPTED {
        return Answer::refused(pen.number, pen.place);
    }
    let at = pen.at;
    if limit::OCTETS < at {
        return Refusal::TooLong.at(0);
    }
    if out.len() <= at {
        return Answer::no_room(at + 1);
    }
    out[at] = 0x00;
    Answer::accepted(n, at + 1)
}
