// What a record is refused for by itself, before the direction rule: 11 and 7.
ghost use Rattle.std.specs.Prelude.{◌≡◌, ◌+◌, leb, length, take, drop};
ghost use Rattle.std.proofs.Math.Option.{some};
ghost use Rattle.base.specs.Choice.{pick};
ghost use Rattle.base.specs.Refusal as refusals;
ghost use Rattle.state.specs.Directions.{Stops, step_seen};
ghost use Rattle.text.specs.Text.{graphic_of};
ghost use Rattle.grammar.specs.Units.{char, ext, code_used};
ghost use Rattle.shortest.specs.Records.{fault};

use base::{Refusal, kind};
use charset::{FORM_94X94, FORM_96, NO_SET, form_of};
use segment::{name_end, whole};
use state::directions::{Directions, counts_as_text};

// A code of one octet that a set of 94 uses.
#[tactic(auto, unfolding(text::specs::Text::graphic_of, base::specs::Choice::pick))]
fn graphic(code: u16) -> bool
    ensures { result ≡ graphic_of code }
{
    matches!(code, 0x21..=0x7E)
}

// Whether a set of a form uses a code.
#[tactic(auto, unfolding(grammar::specs::Units::code_used))]
fn code_used(form: u8, code: u16) -> bool
    ensures { result ≡ code_used form code }
{
    match form {
        FORM_94X94 => graphic(code / 256) && graphic(code % 256),
        FORM_96 => matches!(code, 0x20..=0x7F),
        _ => graphic(code),
    }
}

// A character.
pub fn character(set: u8, code: u16, directions: Directions) -> Result<Directions, Refusal>
    ensures { step_seen result ≡ fault (some (char set code)) directions }
{
    if set < NO_SET && code_used(form_of(set), code) {
        let text = counts_as_text(kind::CHARACTER, 0);
        return directions.step(text, kind::CHARACTER);
    }
    Err(Refusal::BadUnit)
}

// An extended segment of n octets that start at a place of those lent.
pub fn segment(
    d: u16,
    start: usize,
    n: usize,
    segments: &[u8],
    directions: Directions,
) -> Result<Directions, Refusal>
    ensures { step_seen result ≡ pick (leb (start + n) (length segments.now))
        (fault (some (ext d (take n (drop start segments.now)))) directions) (Stops refusals.bad_unit) }
{
    let m = segments.len();
    if m < start || m - start < n || d < 0x30 || 0x34 < d {
        return Err(Refusal::BadUnit);
    }
    if 16383 < n {
        return Err(Refusal::BadSegment);
    }
    let Ok(k) = name_end(&segments[start..start + n]) else {
        return Err(Refusal::BadSegment);
    };
    let size = n - k - 1;
    if whole(d as u8, size) {
        let text = counts_as_text(kind::SEGMENT, size);
        return directions.step(text, kind::SEGMENT);
    }
    Err(Refusal::BadSegment)
}
