// Where a run ends, in a state that text leaves as it is: an octet of the span of a side is of the run.
#![tactic(auto)]

ghost use Rattle.std.specs.Prelude.{◌≡◌};
ghost use Rattle.base.specs.Choice.{from};
ghost use Rattle.run_ends.specs.Ends.{ones_to, twos_to, left_to, right_to, text_to};

use charset::{FORM_94X94, FORM_96};
use pieces::PieceKind;
use state::Sets;

// The end of the octets of a span that start at a place.
// By an index: `next_runs` of text took 1.1 times as long with a `for`.
fn ones(s: &[u8], at: usize, first: u8, last: u8) -> usize
    ensures { result ≡ ones_to first last at (from at s.now) }
{
    let mut i = at;
    while i < s.len() {
        let b = s[i];
        if b < first {
            return i;
        }
        if last < b {
            return i;
        }
        i += 1;
    }
    i
}

// The end of the octets of a span that start at a place, two by two. A loop of its own: one for both widths was slower (docs/PROVING.md).
fn twos(s: &[u8], at: usize, first: u8, last: u8) -> usize
    ensures { result ≡ twos_to first last at (from at s.now) }
{
    if s.len() < at {
        return at;
    }
    let mut i = at;
    while 1 < s.len() - i {
        let b = s[i];
        let d = s[i + 1];
        if b < first {
            return i;
        }
        if last < b {
            return i;
        }
        if d < first {
            return i;
        }
        if last < d {
            return i;
        }
        i += 2;
    }
    i
}

// The end of a GL run that reaches a place. Past the end of the string it is the place itself, here and below.
#[tactic(auto, using(base::proofs::Ladder::ladder), unfolding(crate::specs::Ends::left_to))]
pub fn left_end(s: &[u8], at: usize, sets: Sets) -> usize
    ensures { result ≡ left_to sets at (from at s.now) }
{
    if charset::form_of(sets.gl) == FORM_94X94 {
        twos(s, at, 0x21, 0x7E)
    } else {
        ones(s, at, 0x20, 0x7E)
    }
}

// The end of a GR run that reaches a place.
#[tactic(auto, using(base::proofs::Ladder::ladder), unfolding(crate::specs::Ends::right_to))]
pub fn right_end(s: &[u8], at: usize, sets: Sets) -> usize
    ensures { result ≡ right_to sets at (from at s.now) }
{
    let form = charset::form_of(sets.gr);
    if form == FORM_96 {
        ones(s, at, 0xA0, 0xFF)
    } else if form == FORM_94X94 {
        twos(s, at, 0xA1, 0xFE)
    } else {
        ones(s, at, 0xA1, 0xFE)
    }
}

// The end of a run of a kind, by its number, that reaches a place; any other number is taken for a GR run's.
#[tactic(auto, using(base::proofs::Ladder::ladder), unfolding(crate::specs::Ends::text_to))]
pub fn text_end(s: &[u8], at: usize, sets: Sets, kind: u8) -> usize
    ensures { result ≡ text_to sets kind at (from at s.now) }
{
    if kind == PieceKind::GlRun.number() {
        left_end(s, at, sets)
    } else {
        right_end(s, at, sets)
    }
}
