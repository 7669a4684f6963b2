// Designations, found by their octets.
#![tactic(auto)]

ghost use Rattle.std.specs.Prelude.{◌≡◌};
ghost use Rattle.base.specs.Choice.{from, pick};
ghost use Rattle.designations.specs.Designation.{absent, if_named, named_or, by_final_of, multi_octet_at, sequence_of, designation_at};
ghost use Rattle.designations.specs.Designation.{side_by, told_of, form_after};

use charset::{FORM_94, FORM_94X94, FORM_96, NO_SET, Side};

// A designation: its octets, its side and its set.
#[derive(Clone, Copy)]
pub struct Designation {
    pub octets: usize,
    pub side: Side,
    pub set: u8,
}

// What names no set: the octets and the side that its designation would have; no octets, and GL, where it is no designation.
#[derive(Clone, Copy)]
pub struct Unnamed {
    pub octets: usize,
    pub side: Side,
}

// Where there is no designation.
fn none() -> Designation
    ensures { result ≡ absent }
{
    Designation {
        octets: 0,
        side: Side::GL,
        set: NO_SET,
    }
}

// The designation of a form and side, by its final octet; its set is none where no set has that octet. So in the next three.
fn by_final(octets: usize, form: u8, side: Side, last: u8) -> Designation
    ensures { result ≡ by_final_of octets form side last }
{
    let set = charset::set_of(form, side, last);
    Designation { octets, side, set }
}

// The octets after 1B 24.
#[tactic(auto, using(base::proofs::Ladder::ladder), unfolding(crate::specs::Designation::multi_octet_at))]
fn multi_octet(b: u8, last: u8) -> Designation
    ensures { result ≡ multi_octet_at b last }
{
    match b {
        0x28 => by_final(4, FORM_94X94, Side::GL, last),
        0x29 => by_final(4, FORM_94X94, Side::GR, last),
        _ => none(),
    }
}

// The three octets after 1B.
#[tactic(auto, using(base::proofs::Ladder::ladder), unfolding(crate::specs::Designation::sequence_of))]
fn by_sequence(b: u8, c: u8, d: u8) -> Designation
    ensures { result ≡ sequence_of b c d }
{
    match b {
        0x24 => multi_octet(c, d),
        0x28 => by_final(3, FORM_94, Side::GL, c),
        0x29 => by_final(3, FORM_94, Side::GR, c),
        0x2D => by_final(3, FORM_96, Side::GR, c),
        _ => none(),
    }
}

// The octets at a place. Not put into its callers, who ask whether a set is named: with that test in it, the compiler tells the sets apart by jumps. And one
// test after the other: of one condition, with a value for each outcome, the compiler computes all parts and copies what is answered once more.
#[inline(never)]
fn standing(s: &[u8], at: usize) -> Designation
    ensures { result ≡ designation_at (from at s.now) }
{
    if s.len() <= at {
        return none();
    }
    if s.len() - at < 4 {
        return none();
    }
    if s[at] != 0x1B {
        return none();
    }
    by_sequence(s[at + 1], s[at + 2], s[at + 3])
}

// A designation whose set is one of the fifteen, or what is known of one that names none.
#[tactic(auto, using(base::proofs::Ladder::ladder), unfolding(crate::specs::Designation::named_or))]
fn named(d: Designation) -> Result<Designation, Unnamed>
    ensures { result ≡ named_or d }
{
    if d.set < NO_SET {
        Ok(d)
    } else {
        Err(Unnamed {
            octets: d.octets,
            side: d.side,
        })
    }
}

// The designation that 1B and these three octets begin with.
pub fn sequence(b: u8, c: u8, d: u8) -> Result<Designation, Unnamed>
    ensures { result ≡ named_or (sequence_of b c d) }
{
    named(by_sequence(b, c, d))
}

#[tactic(auto, using(base::proofs::Ladder::ladder))]
fn either(four: bool, m: u8, n: u8) -> u8
    ensures { result ≡ pick four m n }
{
    if four { m } else { n }
}

#[tactic(auto, using(base::proofs::Ladder::ladder), unfolding(crate::specs::Designation::side_by))]
fn side_of(f: u8) -> Side
    ensures { result ≡ side_by f }
{
    if f == 0x28 { Side::GL } else { Side::GR }
}

// What `sequence` tells of octets that name a set, and nothing of others; no branch by the form, which a processor foresees badly where forms change.
pub fn told(b: u8, c: u8, d: u8) -> Option<Designation>
    ensures { result ≡ if_named (told_of b c d) }
{
    let four = b == 0x24;
    let f = either(four, c, b);
    let last = either(four, d, c);
    if f < 0x28 || 0x2F < f {
        return None;
    }
    let place = f - 0x28 + either(four, 8, 0);
    let set = (charset::named_by(last) >> (4 * place)) % 16;
    if set == 15 {
        return None;
    }
    Some(Designation {
        octets: 3 + either(four, 1, 0) as usize,
        side: side_of(f),
        set: set as u8,
    })
}

// The designation at a place, where it has four octets from there on.
pub fn designation_at(s: &[u8], at: usize) -> Result<Designation, Unnamed>
    ensures { result ≡ named_or (designation_at (from at s.now)) }
{
    named(standing(s, at))
}

// The form of the set that a designation names, by its first octet after 1B: known before the set is.
#[tactic(auto, using(base::proofs::Ladder::ladder), unfolding(crate::specs::Designation::form_after))]
pub fn form_after(b: u8) -> u8
    ensures { result ≡ form_after b }
{
    if b == 0x24 {
        FORM_94X94
    } else if b == 0x2D {
        FORM_96
    } else {
        FORM_94
    }
}
