// Units of one octet, one after another: by the entry of each octet, and by blocks of 64.
ghost use Rattle.std.specs.Prelude.{◌≡◌, true, ◌+◌, ◌-◌, ◌≤◌, length};
ghost use Rattle.octet_stretches.specs.Stretched.{Entry, Ones, Stretched};

use crate::entries::{entry_at, full_right};
use octet_blocks::blocks::blocks_end;
use octet_table::{ONE_GR, SPACE};

// The place after the units of one octet that start at a place, up to an end.
pub fn singles(row: &[u8; 256], s: &[u8], at: usize, end: usize) -> usize
    requires { (at ≤ end) × (end ≤ length s.now) }
    ensures { Ones row.now s.now at result }
{
    for i in at..end {
        if ONE_GR < entry_at(row, s, i) {
            return i;
        }
    }
    end
}

// Whether the four octets at a place are units by themselves.
fn four(row: &[u8; 256], s: &[u8], at: usize) -> bool
    requires { at + 4 ≤ length s.now }
    ensures { result ≡ true → Ones row.now s.now at (at + 4) }
{
    entry_at(row, s, at) <= ONE_GR
        && entry_at(row, s, at + 1) <= ONE_GR
        && entry_at(row, s, at + 2) <= ONE_GR
        && entry_at(row, s, at + 3) <= ONE_GR
}

// The place after the units of one octet that start at a place, four by four.
pub fn fours(row: &[u8; 256], s: &[u8], at: usize) -> usize
    requires { at ≤ length s.now }
    ensures { Ones row.now s.now at result }
{
    let mut i = at;
    while 4 <= s.len() - i && four(row, s, i) {
        i += 4;
    }
    i
}

// The place after the blocks of units of one octet that start at a place, where the octet there has this entry.
pub fn ones(row: &[u8; 256], s: &[u8], at: usize, k: u8) -> usize
    requires { Entry row.now s.now at k }
    ensures { Stretched row.now s.now at result (result - at) }
{
    if k <= SPACE {
        blocks_end(s, at, 0x20, 0x7E)
    } else if k != ONE_GR {
        at
    } else if full_right(row) {
        blocks_end(s, at, 0xA0, 0xFF)
    } else {
        blocks_end(s, at, 0xA1, 0xFE)
    }
}
