// Characters of two octets, one after another: by the entries of both octets, by words of eight octets, and by blocks of 64.
ghost use Rattle.std.specs.Prelude.{◌≡◌, true, ◌+◌, ◌*◌, ◌-◌, ◌/◌, ◌≤◌, ◌<◌, length};
ghost use Rattle.octet_blocks.specs.Blocks.{Within};
ghost use Rattle.octet_stretches.specs.Stretched.{Entry, Stretched};

use crate::Stretch;
use crate::entries::entry_at;
use octet_blocks::blocks::blocks_end;
use octet_blocks::words::leading;
use octet_table::TWO_GL;

// Whether a character of two octets stands at a place, both of which have this entry.
fn pair(row: &[u8; 256], s: &[u8], at: usize, k: u8) -> bool
    requires { (at + 2 ≤ length s.now) × (5 ≤ k) × (k ≤ 6) }
    ensures { result ≡ true → Stretched row.now s.now at (at + 2) 1 }
{
    entry_at(row, s, at) == k && entry_at(row, s, at + 1) == k
}

// The characters of two octets that start at a place, of this entry, up to an end.
pub fn pairs(row: &[u8; 256], s: &[u8], at: usize, end: usize, k: u8) -> Stretch
    requires { (at ≤ end) × (end ≤ length s.now) × (5 ≤ k) × (k ≤ 6) }
    ensures { Stretched row.now s.now at (at + result.octets) result.units }
{
    let mut i = at;
    let mut n: usize = 0;
    while 2 <= end - i && pair(row, s, i, k) {
        i += 2;
        n += 1;
    }
    Stretch {
        octets: i - at,
        units: n,
    }
}

// Whole characters of two octets from a place up to an end.
fn pairs_to(at: usize, end: usize) -> Stretch
    requires { at ≤ end }
    ensures { (result.octets ≡ 2 * result.units) × (result.units ≡ (end - at) / 2) }
{
    let n = (end - at) / 2;
    Stretch {
        octets: 2 * n,
        units: n,
    }
}

// A stretch of characters of two octets, whose octets are of a span.
pub fn twos(s: &[u8], at: usize, first: u8, last: u8) -> Stretch
    requires { at ≤ length s.now }
    ensures { Within first last s.now at (at + result.octets) × (result.octets ≡ 2 * result.units) }
{
    pairs_to(at, blocks_end(s, at, first, last))
}

// The characters of two octets in GL that start at a place: a word of eight octets at a time up to an end that is near, and octet by octet where
// no word is left.
pub fn doubles(row: &[u8; 256], s: &[u8], at: usize, end: usize) -> Stretch
    requires { (at < end) × (end ≤ length s.now) × Entry row.now s.now at 5 }
    ensures { Stretched row.now s.now at (at + result.octets) result.units }
{
    let mut i = at;
    while 8 <= s.len() - i {
        let n = leading(s, i);
        if n < 8 {
            return pairs_to(at, i + n);
        }
        i += 8;
        if end <= i {
            return pairs_to(at, i);
        }
    }
    let a = pairs_to(at, i);
    let b = pairs(row, s, i, end, TWO_GL);
    Stretch {
        octets: a.octets + b.octets,
        units: a.units + b.units,
    }
}
