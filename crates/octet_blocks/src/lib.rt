// Octets of one span, many at a time: 64 by counting those outside, and eight in one word; and one octet at any place.
#![tactic(auto)]

ghost use Rattle.std.specs.Prelude.{◌≡◌, slice_index};

pub mod blocks;
pub mod words;

// The octet at a place, and 00 past the end.
pub fn octet(s: &[u8], i: usize) -> u8
    ensures { result ≡ slice_index s.now i }
{
    *s.get(i).unwrap_or(&0)
}
