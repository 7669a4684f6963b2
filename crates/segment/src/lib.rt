// Extended segments. `t` is the octets from the start of an element on, so that a place in it is what a refusal tells.
#![tactic(auto)]

ghost use Rattle.std.specs.Prelude.{◌≡◌, ◌≤◌, ◌<◌, length};
ghost use Rattle.base.specs.Choice.{from};
ghost use Rattle.state.specs.Elements.{shape_seen};
ghost use Rattle.segment.specs.Segment.{Ends, name_seen, name_octet_of, name_of, text_width_of, whole_of, content_of, body_of, lengths_of, extended_of};

use base::{Refusal, kind};
use state::directions::counts_as_text;
use state::elements::{Part, Refused, Shape, octet_after};

// Why a name has no end.
#[derive(Clone, Copy, PartialEq, Eq)]
pub enum BadName {
    // the octet at this place may not stand there
    Octet(usize),
    // there is no 02, and each octet may be a name's
    Endless,
}

#[tactic(auto, using(base::proofs::Ladder::ladder), unfolding(crate::specs::Segment::name_octet_of))]
pub fn name_octet(b: u8) -> bool
    ensures { result ≡ name_octet_of b }
{
    match b {
        0x2A | 0x3F => false,
        0x21..=0x7E | 0xA1..=0xFF => true,
        _ => false,
    }
}

// Where the name at the start of a segment's octets ends: before the 02 at this place.
#[tactic(auto, using(base::proofs::Ladder::after, crate::proofs::Steps::named), unfolding(crate::specs::Segment::name_of, base::specs::Choice::from))]
pub fn name_end(s: &[u8]) -> Result<usize, BadName>
    ensures { name_seen result ≡ name_of s.now 0 }
{
    for (i, &b) in s.iter().enumerate() {
        if b == 2 {
            return if i == 0 {
                Err(BadName::Octet(0))
            } else {
                Ok(i)
            };
        }
        if !name_octet(b) {
            return Err(BadName::Octet(i));
        }
    }
    Err(BadName::Endless)
}

// The octets of a character of the text.
#[tactic(auto, using(base::proofs::Ladder::ladder), unfolding(crate::specs::Segment::text_width_of))]
pub fn text_width(d: u8) -> usize
    ensures { result ≡ text_width_of d }
{
    match d {
        0x32 => 2,
        0x33 => 3,
        0x34 => 4,
        _ => 1,
    }
}

// Whether a text of so many octets has whole characters.
pub fn whole(d: u8, text: usize) -> bool
    ensures { result ≡ whole_of d text }
{
    text % text_width(d) == 0
}

// A segment of n octets whose name ends before the 02 at a place.
#[tactic(auto, using(base::proofs::Ladder::ladder), unfolding(crate::specs::Segment::content_of))]
fn named(d: u8, n: usize, k: usize) -> Result<Shape, Refused>
    requires { (k < n) × (n ≤ 65535) }
    ensures { shape_seen result ≡ content_of d n (Ends k) }
{
    let size = n - k - 1;
    if !whole(d, size) {
        return Err(Refused(Refusal::BadSegment, 5 + n));
    }
    Ok(Shape::Gives(Part {
        skip: 6,
        octets: n,
        code: d as u16,
        kind: kind::SEGMENT,
        set: 0,
        text: counts_as_text(kind::SEGMENT, size),
    }))
}

// The n octets of a segment.
fn body(t: &[u8], d: u8, n: usize) -> Result<Shape, Refused>
    requires { (6 ≤ length t.now) × (n ≤ 65535) }
    ensures { shape_seen result ≡ body_of d n (from 6 t.now) }
{
    if t.len() - 6 < n {
        return Err(Refused(Refusal::Cut, t.len()));
    }
    match name_end(&t[6..6 + n]) {
        Ok(k) => named(d, n, k),
        Err(BadName::Octet(k)) => Err(Refused(Refusal::BadSegment, 6 + k)),
        Err(BadName::Endless) => Err(Refused(Refusal::BadSegment, 5 + n)),
    }
}

// After 1B 25 2F d: M, L and the n octets.
#[tactic(auto, using(state::proofs::Steps::steps), unfolding(crate::specs::Segment::lengths_of))]
pub fn lengths(t: &[u8], d: u8) -> Result<Shape, Refused>
    ensures { shape_seen result ≡ lengths_of d (from 4 t.now) }
{
    let m = octet_after(t, 4)?;
    if m < 0x80 {
        return Err(Refused(Refusal::BadSegment, 4));
    }
    let l = octet_after(t, 5)?;
    if l < 0x80 {
        return Err(Refused(Refusal::BadSegment, 5));
    }
    body(t, d, usize::from(m - 128) * 128 + usize::from(l - 128))
}

// After 1B 25.
#[tactic(auto, using(state::proofs::Steps::steps), unfolding(crate::specs::Segment::extended_of))]
pub fn extended(t: &[u8]) -> Result<Shape, Refused>
    ensures { shape_seen result ≡ extended_of (from 2 t.now) }
{
    if octet_after(t, 2)? != 0x2F {
        return Err(Refused(Refusal::Unknown, 2));
    }
    match octet_after(t, 3)? {
        d @ 0x30..=0x34 => lengths(t, d),
        _ => Err(Refused(Refusal::Unknown, 3)),
    }
}
