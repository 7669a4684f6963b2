// Characters and spaces.
#![tactic(auto)]

ghost use Rattle.std.specs.Prelude.{◌≡◌, Ok};
ghost use Rattle.base.specs.Choice.{from};
ghost use Rattle.state.specs.Elements.{shape_seen};
ghost use Rattle.text.specs.Text.{graphic_of, one_octet_of, two_octets_of, space_of, second_octet_of};
ghost use Rattle.text.specs.Functions.{character_of, text_of};

use base::{Refusal, kind};
use charset::{FORM_94X94, FORM_96};
use state::Sets;
use state::elements::{Part, Refused, Shape};

// An octet, less its top bit, that a set of 94 uses.
#[tactic(auto, using(base::proofs::Ladder::ladder), unfolding(crate::specs::Text::graphic_of))]
pub fn graphic(c: u8) -> bool
    ensures { result ≡ graphic_of c }
{
    (0x21..=0x7E).contains(&c)
}

pub fn one_octet(set: u8, b: u8) -> Shape
    ensures { shape_seen (Ok result) ≡ one_octet_of set b }
{
    Shape::Gives(Part {
        skip: 0,
        octets: 1,
        code: (b % 128) as u16,
        kind: kind::CHARACTER,
        set,
        text: true,
    })
}

pub fn two_octets(set: u8, b: u8, d: u8) -> Shape
    ensures { shape_seen (Ok result) ≡ two_octets_of set b d }
{
    Shape::Gives(Part {
        skip: 0,
        octets: 2,
        code: (b % 128) as u16 * 256 + (d % 128) as u16,
        kind: kind::CHARACTER,
        set,
        text: true,
    })
}

pub fn space() -> Shape
    ensures { shape_seen (Ok result) ≡ space_of }
{
    Shape::Gives(Part {
        skip: 0,
        octets: 1,
        code: 0,
        kind: kind::SPACE,
        set: 0,
        text: true,
    })
}

// The second octet of a two-octet character that begins with b: on the side of b.
#[tactic(auto, using(state::proofs::Steps::steps), unfolding(crate::specs::Text::second_octet_of))]
pub fn second_octet(s: &[u8], at: usize, set: u8, b: u8) -> Result<Shape, Refused>
    ensures { shape_seen result ≡ second_octet_of set b (from at s.now) }
{
    let Some(&d) = s.get(at) else {
        return Err(Refused(Refusal::Cut, 1));
    };
    if d / 128 == b / 128 && graphic(d % 128) {
        return Ok(two_octets(set, b, d));
    }
    Err(Refused(Refusal::Unused, 1))
}

// A character that begins with b, where at is the place after b.
#[tactic(auto, using(state::proofs::Steps::steps), unfolding(crate::specs::Functions::character_of))]
pub fn character(s: &[u8], at: usize, set: u8, b: u8) -> Result<Shape, Refused>
    ensures { shape_seen result ≡ character_of set b (from at s.now) }
{
    let form = charset::form_of(set);
    if form == FORM_96 {
        return Ok(one_octet(set, b));
    }
    if !graphic(b % 128) {
        return Err(Refused(Refusal::Unused, 0));
    }
    if form == FORM_94X94 {
        return second_octet(s, at, set, b);
    }
    Ok(one_octet(set, b))
}

// A GL or GR octet b, where at is the place after b.
#[tactic(auto, using(state::proofs::Steps::steps), unfolding(crate::specs::Functions::text_of))]
pub fn text(s: &[u8], at: usize, b: u8, sets: Sets) -> Result<Shape, Refused>
    ensures { shape_seen result ≡ text_of b (from at s.now) sets }
{
    if b == 0x20 {
        if charset::form_of(sets.gl) == FORM_94X94 {
            return Err(Refused(Refusal::Unused, 0));
        }
        return Ok(space());
    }
    if b < 0x80 {
        return character(s, at, sets.gl, b);
    }
    character(s, at, sets.gr, b)
}
