// The entry of the octet at a place, in the row that is lent.
ghost use Rattle.std.specs.Prelude.{◌≡◌, true, ◌≤◌, ◌<◌, length, get_or};
ghost use Rattle.octet_stretches.specs.Stretched.{Entry};

use octet_table::ONE_GR;

// The entry of the octet at a place.
pub fn entry_at(row: &[u8; 256], s: &[u8], at: usize) -> u8
    requires { at < length s.now }
    ensures { Entry row.now s.now at result }
{
    row[usize::from(s[at])]
}

// Whether A0 is a character in a row: then the set in GR uses all of its 96 octets.
pub fn full_right(row: &[u8; 256]) -> bool
    ensures { result ≡ true → get_or row.now 0xA0 0 ≡ 4 }
{
    row[0xA0] == ONE_GR
}
