// One record: what it is refused for, its set and code, and its octets, counted and stored.
#![tactic(auto)]

ghost use Rattle.std.specs.Prelude.{◌≡◌};
ghost use Rattle.base.specs.Choice.{pick};
ghost use Rattle.base.specs.Refusal.{number_if};
ghost use Rattle.grammar.specs.Records.{unit_read};
ghost use Rattle.unit_octets.specs.Octets.{Stored};
ghost use Rattle.x11r5.specs.Records.{record_refusal};
ghost use Rattle.r5_units.specs.Unit.{refusal_by_kind, single_of, space_set, text_set, text_code, stands_on};
ghost use Rattle.r5_units.specs.Unit.{width_of, designated_width, control_octet, text_octets};

use base::{Refusal, Unit, kind};
use charset::FIRST_DOUBLE;
use record_rules::judge;
use record_rules::plain::plain;
use state::directions::Directions;
use unit_octets::{on_side, stores};

// What a good unit of a kind is refused for.
#[tactic(auto, unfolding(crate::specs::Unit::refusal_by_kind, base::specs::Choice::pick))]
fn by_kind(kind: u8) -> Option<Refusal>
    ensures { number_if result ≡ refusal_by_kind kind }
{
    if kind < kind::LEFT_TO_RIGHT {
        None
    } else {
        Some(Refusal::Unsupported)
    }
}

// Whether a record is a space, or a character of one octet with a code that each such set uses.
#[tactic(auto, unfolding(crate::specs::Unit::single_of, base::specs::Choice::pick))]
fn single(unit: Unit) -> bool
    ensures { result ≡ single_of unit }
{
    // that of a space is looked at as 21
    let code = text_code(unit) as u32 + unit.kind as u32;
    unit.kind <= kind::SPACE && text_set(unit, 0) < FIRST_DOUBLE && matches!(code, 0x21..=0x7E)
}

// What a record is refused for, if for anything: characters and spaces are asked quickly first, and where the base writer gives no 11 the kind decides.
pub fn refusal_of(unit: Unit, segments: &[u8]) -> Option<Refusal>
    ensures { number_if result ≡ record_refusal (unit_read segments.now unit) }
{
    if single(unit) || plain(unit) {
        return None;
    }
    // a record of its own, so that the compiler keeps the fields of the one given in registers
    let whole = Unit { ..unit };
    match judge(whole, segments, Directions::NONE) {
        Err(refusal) if refusal == Refusal::BadUnit => Some(refusal),
        _ => by_kind(unit.kind),
    }
}

// The set of a character; of a space set 2 where that stands in GL, and else set 0, so that both are written alike: words and spaces alternate.
#[tactic(auto, unfolding(crate::specs::Unit::text_set, base::specs::Choice::pick))]
pub fn text_set(unit: Unit, gl: u8) -> u8
    ensures { result ≡ text_set unit gl }
{
    let space = space_set(gl);
    if unit.kind == kind::SPACE {
        space
    } else {
        unit.set
    }
}

// The set that a space takes, by that which stands in GL.
#[tactic(auto, unfolding(crate::specs::Unit::space_set, base::specs::Choice::pick))]
fn space_set(gl: u8) -> u8
    ensures { result ≡ space_set gl }
{
    if gl == 2 { 2 } else { 0 }
}

// The code of a character, or that of a space.
#[tactic(auto, unfolding(crate::specs::Unit::text_code, base::specs::Choice::pick))]
pub fn text_code(unit: Unit) -> u16
    ensures { result ≡ text_code unit }
{
    if unit.kind == kind::SPACE {
        0x20
    } else {
        unit.code
    }
}

// Whether a set stands on one of the two sides.
#[tactic(auto, unfolding(crate::specs::Unit::stands_on, base::specs::Choice::pick))]
pub fn stands(set: u8, gl: u8, gr: u8) -> bool
    ensures { result ≡ stands_on set gl gr }
{
    gl == set || gr == set
}

// The set on a side.
#[tactic(auto, unfolding(base::specs::Choice::pick))]
pub fn standing(left: bool, gl: u8, gr: u8) -> u8
    ensures { result ≡ pick left gl gr }
{
    if left { gl } else { gr }
}

// The octets of a set's characters.
#[tactic(auto, unfolding(crate::specs::Unit::width_of, base::specs::Choice::pick))]
pub fn width(set: u8) -> u8
    ensures { result ≡ width_of set }
{
    if FIRST_DOUBLE <= set { 2 } else { 1 }
}

// The octets of a character and of the designation of its set.
#[tactic(auto, unfolding(crate::specs::Unit::designated_width, base::specs::Choice::pick))]
pub fn designated_width(set: u8) -> u8
    ensures { result ≡ designated_width set }
{
    if FIRST_DOUBLE <= set { 6 } else { 4 }
}

// The octet of a tab or a newline.
#[tactic(auto, unfolding(crate::specs::Unit::control_octet, base::specs::Choice::pick))]
pub fn control(kind: u8) -> u8
    ensures { result ≡ control_octet kind }
{
    if kind == kind::TAB { 0x09 } else { 0x0A }
}

// Stores a character on a side, and answers the next place.
pub fn put(set: u8, code: u16, left: bool, out: &mut [u8], at: usize) -> usize
    ensures { Stored out.old at (text_octets set code left) result out.new }
{
    let low = on_side(left, (code % 256) as u8);
    if FIRST_DOUBLE <= set {
        let high = on_side(left, (code / 256) as u8);
        return stores::put([high, low], out, at);
    }
    stores::put([low], out, at)
}
