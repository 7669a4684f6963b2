// Stretches of units of one width that leave the state as it is.
ghost use Rattle.std.specs.Prelude.{◌≡◌, true, ◌+◌, ◌*◌, ◌^◌, ◌≤◌, ◌<◌, length};
ghost use Rattle.base.specs.Choice.{from};
ghost use Rattle.stretch.specs.Characters.{gl_octet, graphic_on, gr_octet, single_of, one_at, two_at, Within, Four, Filled, Along, singles_of, pairs_of};
ghost use Rattle.stretch.specs.Characters.{number, settled_of, stretch, twos_of, by_forms_of, stretch_at};

use charset::{FORM_94, FORM_94X94, FORM_96, Side};
use state::State;
use state::directions::Directions;

// A space or a GL octet of a character.
#[tactic(auto, using(crate::proofs::Loops::testing), unfolding(crate::specs::Characters::gl_octet))]
fn gl_octet(b: u8) -> bool
    ensures { result ≡ gl_octet b }
{
    (0x20..0x7F).contains(&b)
}

// An octet of a two-octet character on a side.
#[tactic(auto, using(crate::proofs::Loops::testing), unfolding(crate::specs::Characters::graphic_on, text::specs::Text::graphic_of))]
fn graphic_on(side: Side, b: u8) -> bool
    ensures { result ≡ graphic_on (number side) b }
{
    b / 128 == side as u8 && (0x21..=0x7E).contains(&(b % 128))
}

// A GR octet that is a character by itself, where the set in GR is of this form.
#[tactic(auto, using(crate::proofs::Loops::testing), unfolding(crate::specs::Characters::gr_octet))]
fn gr_octet(right: u8, b: u8) -> bool
    ensures { result ≡ gr_octet right b }
{
    0xA0 <= b && (right == FORM_96 || right == FORM_94 && graphic_on(Side::GR, b))
}

// An octet that is a unit by itself, where the sets in GL and GR are of these forms.
#[tactic(auto, using(crate::proofs::Loops::testing), unfolding(crate::specs::Characters::single_of))]
fn single(left: u8, right: u8, b: u8) -> bool
    ensures { result ≡ single_of left right b }
{
    if gl_octet(b) {
        left != FORM_94X94
    } else if b < 0x0B {
        0x09 <= b
    } else {
        gr_octet(right, b)
    }
}

// An octet of a span.
fn within(first: u8, last: u8, b: u8) -> bool
    ensures { result ≡ true → Within first last b }
{
    (first..=last).contains(&b)
}

// Whether the four octets at a place are of a span.
fn four(s: &[u8], at: usize, first: u8, last: u8) -> bool
    requires { at + 4 ≤ length s.now }
    ensures { result ≡ true → Four first last s.now at }
{
    within(first, last, s[at])
        && within(first, last, s[at + 1])
        && within(first, last, s[at + 2])
        && within(first, last, s[at + 3])
}

// The place after the octets of a span that start at a place, four by four.
fn fours(s: &[u8], at: usize, first: u8, last: u8) -> usize
    requires { at ≤ length s.now }
    ensures { Filled first last s.now at result }
{
    let mut i = at;
    while 4 <= s.len() - i && four(s, i, first, last) {
        i += 4;
    }
    i
}

// The place after the octets that start at a place, stand on the side of b, and are units by themselves, four by four. The spans are
// written out so that each loop compares with constants.
fn same_side(s: &[u8], at: usize, left: u8, right: u8, b: u8) -> usize
    requires { at ≤ length s.now }
    ensures { Along (one_at left right) 0 s.now at result }
{
    if b < 0x80 {
        if left == FORM_94X94 {
            at
        } else {
            fours(s, at, 0x20, 0x7E)
        }
    } else if right == FORM_96 {
        fours(s, at, 0xA0, 0xFF)
    } else if right == FORM_94 {
        fours(s, at, 0xA1, 0xFE)
    } else {
        at
    }
}

// The number of the units of one octet that start at a place, where the sets in GL and GR are of these forms.
fn singles(s: &[u8], at: usize, left: u8, right: u8) -> usize
    requires { at ≤ length s.now }
    ensures { (result ≡ singles_of left right (from at s.now)) × (at + result ≤ length s.now) }
{
    let mut i = at;
    while i < s.len() && single(left, right, s[i]) {
        i = same_side(s, i + 1, left, right, s[i]);
    }
    i - at
}

// The place after the two-octet characters that start at a place, on a side, two by two. The spans are written out, as in `same_side`.
fn pair_fours(s: &[u8], at: usize, side: Side) -> usize
    requires { at ≤ length s.now }
    ensures { Along (two_at (number side)) 1 s.now at result }
{
    match side {
        Side::GL => fours(s, at, 0x21, 0x7E),
        Side::GR => fours(s, at, 0xA1, 0xFE),
    }
}

// The number of the two-octet characters that start at a place, on a side.
fn pairs(s: &[u8], at: usize, side: Side) -> usize
    requires { at ≤ length s.now }
    ensures { (result ≡ pairs_of (number side) (from at s.now)) × (at + 2 * result ≤ length s.now) }
{
    let mut i = pair_fours(s, at, side);
    while 1 < s.len() - i && graphic_on(side, s[i]) && graphic_on(side, s[i + 1]) {
        i += 2;
    }
    (i - at) / 2
}

// Whether text leaves the directions as they are.
#[tactic(auto, using(crate::proofs::Loops::testing), unfolding(crate::specs::Characters::settled_of))]
pub fn settled(d: Directions) -> bool
    ensures { result ≡ settled_of d }
{
    d.texted && (!d.marked || d.depth != 0)
}

// A stretch: its octets, and the units in it. octet_stretches, which does not stand on this crate, has the same two fields: a crate for both would hold
// no more than this struct.
#[derive(Clone, Copy)]
pub struct Stretch {
    pub octets: usize,
    pub units: usize,
}

impl Stretch {
    const NONE: Stretch = Stretch {
        octets: 0,
        units: 0,
    };

    // So many units of one octet.
    fn of_ones(units: usize) -> Stretch
        ensures { result ≡ stretch units units }
    {
        Stretch {
            octets: units,
            units,
        }
    }

    // So many units of two octets.
    fn of_twos(units: usize) -> Stretch
        requires { 2 * units < 2 ^ 64 }
        ensures { result ≡ stretch (2 * units) units }
    {
        Stretch {
            octets: 2 * units,
            units,
        }
    }
}

// A stretch of two-octet characters on a side, where the set on it is of this form.
fn twos(s: &[u8], at: usize, form: u8, side: Side) -> Stretch
    requires { at ≤ length s.now }
    ensures { result ≡ twos_of form (number side) (from at s.now) }
{
    if form == FORM_94X94 {
        Stretch::of_twos(pairs(s, at, side))
    } else {
        Stretch::NONE
    }
}

// The stretch at a place, where the sets in GL and GR are of these forms.
fn by_forms(s: &[u8], at: usize, left: u8, right: u8) -> Stretch
    requires { at ≤ length s.now }
    ensures { result ≡ by_forms_of left right (from at s.now) }
{
    let lefts = twos(s, at, left, Side::GL);
    if 0 < lefts.units {
        return lefts;
    }
    let rights = twos(s, at, right, Side::GR);
    if 0 < rights.units {
        return rights;
    }
    Stretch::of_ones(singles(s, at, left, right))
}

// The stretch at a place, of no octets where there is none. Where text would change the state, it is of tabs and newlines: the units of
// one octet where neither side has characters of one.
pub fn stretch_at(s: &[u8], at: usize, st: State) -> Stretch
    ensures { result ≡ stretch_at (from at s.now) st }
{
    if s.len() < at {
        Stretch::NONE
    } else if settled(st.directions) {
        let left = charset::form_of(st.sets.gl);
        let right = charset::form_of(st.sets.gr);
        by_forms(s, at, left, right)
    } else {
        Stretch::of_ones(singles(s, at, FORM_94X94, 0))
    }
}
