// Octets of one span, 64 at a time: no octet of a block is decided by itself, so the compiler compares 16 of them at once.
ghost use Rattle.std.specs.Prelude.{◌≡◌, ◌+◌, ◌<◌, ◌≤◌, length};
ghost use Rattle.octet_blocks.specs.Blocks.{Within, outside_of};

// 1 for an octet that is not of the span.
fn outside(first: u8, last: u8, b: u8) -> u8
    ensures { result ≡ outside_of first last b }
{
    u8::from(b < first || last < b)
}

// How many of the 64 octets at a place are not of the span.
fn strays(s: &[u8], at: usize, first: u8, last: u8) -> u8
    requires { at + 64 ≤ length s.now }
    ensures { result ≡ 0 → Within first last s.now at (at + 64) }
{
    let mut n: u8 = 0;
    for j in 0..64 {
        n += outside(first, last, s[at + j]);
    }
    n
}

// The place after the blocks of octets of a span that start at a place; the place itself where it is behind the string's end.
pub fn blocks_end(s: &[u8], at: usize, first: u8, last: u8) -> usize
    ensures { (at ≤ length s.now → Within first last s.now at result) × (length s.now < at → result ≡ at) }
{
    if s.len() < at {
        return at;
    }
    let mut i = at;
    while 64 <= s.len() - i && strays(s, i, first, last) == 0 {
        i += 64;
    }
    i
}
