// What the octet at a place starts, looked up in the table that is lent.
ghost use Rattle.std.specs.Prelude.{◌≡◌, ◌≤◌, ◌<◌, length};
ghost use Rattle.octet_table.specs.Table.{table};
ghost use Rattle.archive_laws.specs.Passes.{Classed};

// The entries of the table.
pub type Entries = [u8; 1536];

// The class of the octet at a place, in the row that starts at an entry.
pub fn class_at(t: &Entries, s: &[u8], at: usize, row: usize) -> u8
    requires { (t.now ≡ table) × (row ≤ 1280) × (at < length s.now) }
    ensures { Classed row s.now at result }
{
    t[row + usize::from(s[at])]
}
