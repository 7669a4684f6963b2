// Stretches of units of one octet and of two, that leave the state as it is, by the row of a table that is lent: its entry for an octet is the class of
// what that octet starts. Where it has fewer than 256 entries, or the place is not in the string, nothing is passed.
#![tactic(auto)]

ghost use Rattle.std.specs.Prelude.{◌≡◌, ◌+◌, ◌≤◌, ◌<◌, length};
ghost use Rattle.octet_stretches.specs.Stretched.{Entry, ClassAt, Ones, Stretched};

use crate::entries::entry_at;
use crate::one_octet::{fours, ones, singles};
use crate::two_octets::{doubles, pairs, twos};
use octet_table::{ONE_GR, TWO_GL, TWO_GR, UNUSED};

mod entries;
mod one_octet;
mod two_octets;

// How far a stretch goes octet by octet before blocks are tried: an even number, for characters of two octets.
const NEAR: usize = 32;

// So many octets, which are so many units.
#[derive(Clone, Copy)]
pub struct Stretch {
    pub octets: usize,
    pub units: usize,
}

impl Stretch {
    const NONE: Stretch = Stretch {
        octets: 0,
        units: 0,
    };

    // So many octets, each of which is a unit.
    fn of_ones(n: usize) -> Stretch
        ensures { (result.octets ≡ n) × (result.units ≡ n) }
    {
        Stretch {
            octets: n,
            units: n,
        }
    }
}

// The stretch at a place, up to an end that is near.
fn near(row: &[u8; 256], s: &[u8], at: usize, end: usize) -> Stretch
    requires { (at < end) × (end ≤ length s.now) }
    ensures { Stretched row.now s.now at (at + result.octets) result.units }
{
    let k = entry_at(row, s, at);
    if k <= ONE_GR {
        Stretch::of_ones(singles(row, s, at, end) - at)
    } else if k == TWO_GL {
        doubles(row, s, at, end)
    } else if k == TWO_GR {
        pairs(row, s, at, end, TWO_GR)
    } else {
        Stretch::NONE
    }
}

// What follows a stretch of this entry, by blocks, and then four by four where its units have one octet.
fn far(row: &[u8; 256], s: &[u8], at: usize, k: u8) -> Stretch
    requires { Entry row.now s.now at k }
    ensures { Stretched row.now s.now at (at + result.octets) result.units }
{
    if k == TWO_GL {
        twos(s, at, 0x21, 0x7E)
    } else if k == TWO_GR {
        twos(s, at, 0xA1, 0xFE)
    } else {
        Stretch::of_ones(fours(row, s, ones(row, s, at, k)) - at)
    }
}

// The stretch at a place of the string: octet by octet, and where nothing ends it near, by blocks.
fn found(row: &[u8; 256], s: &[u8], at: usize) -> Stretch
    requires { at < length s.now }
    ensures { Stretched row.now s.now at (at + result.octets) result.units }
{
    let a = near(row, s, at, at + (s.len() - at).min(NEAR));
    if a.octets < NEAR {
        return a;
    }
    let next = at + a.octets;
    if s.len() <= next {
        return a;
    }
    let b = far(row, s, next, entry_at(row, s, next));
    Stretch {
        octets: a.octets + b.octets,
        units: a.units + b.units,
    }
}

// The stretch at a place.
pub fn stretch_by(row: &[u8], s: &[u8], at: usize) -> Stretch
    ensures { Stretched row.now s.now at (at + result.octets) result.units }
{
    let Some(row) = row.first_chunk() else {
        return Stretch::NONE;
    };
    if at < s.len() {
        found(row, s, at)
    } else {
        Stretch::NONE
    }
}

// The place after the units of one octet at a place.
pub fn singles_by(row: &[u8], s: &[u8], at: usize) -> usize
    ensures { Ones row.now s.now at result }
{
    let Some(row) = row.first_chunk() else {
        return at;
    };
    if at < s.len() {
        singles(row, s, fours(row, s, at), s.len())
    } else {
        at
    }
}

// The class of the octet at a place; that of an unused octet where there is none.
pub fn class_at(row: &[u8], s: &[u8], at: usize) -> u8
    ensures { ClassAt row.now s.now at result }
{
    let Some(row) = row.first_chunk() else {
        return UNUSED;
    };
    if at < s.len() {
        entry_at(row, s, at)
    } else {
        UNUSED
    }
}
