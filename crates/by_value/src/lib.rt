// The lent list and the held reader for callers that have neither: plain parameters, and answers by value.
#![tactic(auto)]

ghost use Rattle.std.specs.Prelude.{◌≡◌, replicate};
ghost use Rattle.grammar.specs.Reading.{check_of};
ghost use Rattle.read.specs.Listing.{list_after};
ghost use Rattle.reader.specs.Reader.{units_before, item_of};

use base::Unit;
use reader::Item;

// What step k of a reader that is opened on a string hands out, counted from 0.
pub fn nth(s: &[u8], k: usize) -> Item
    ensures { result ≡ item_of k (units_before s.now) (check_of s.now) }
{
    let mut r = reader::open(s);
    for _ in 0..k {
        let _ = reader::next(&mut r);
    }
    reader::next(&mut r)
}

// A list of eight records, each of which is `mark`, after `read`.
pub fn read_eight(s: &[u8], mark: Unit) -> [Unit; 8]
    ensures { result ≡ list_after s.now (replicate 8 mark) }
{
    let mut list = [mark; 8];
    read::read(s, &mut list);
    list
}
