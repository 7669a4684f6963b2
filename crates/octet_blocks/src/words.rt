// Eight octets as one word, the first of them lowest.
ghost use Rattle.std.specs.Prelude.{◌≡◌, ◌+◌, ◌/◌, ◌<◌, ◌≤◌, length};
ghost use Rattle.std.specs.Int.Count.{count_trailing_zeros};
ghost use Rattle.octet_blocks.specs.Words.{led_of, word_of, eight_at, leading_of};

// The highest digit of each octet: set at the first octet that is not of 21-7E, and at none before it.
fn stops(w: u64) -> u64
    ensures { count_trailing_zeros 64 result / 8 ≡ led_of 8 w }
{
    let low = w.wrapping_sub(0x2121_2121_2121_2121);
    let high = w.wrapping_add(0x0101_0101_0101_0101);
    (low | high) & 0x8080_8080_8080_8080
}

// How many octets of a word are of 21-7E, up to the first that is not.
pub fn led(w: u64) -> usize
    ensures { result ≡ led_of 8 w }
{
    (stops(w).trailing_zeros() / 8) as usize
}

// The eight octets at a place.
fn word(s: &[u8], at: usize) -> u64
    requires { at + 8 ≤ length s.now }
    ensures { result ≡ word_of (eight_at s.now at) }
{
    u64::from_le_bytes([
        s[at],
        s[at + 1],
        s[at + 2],
        s[at + 3],
        s[at + 4],
        s[at + 5],
        s[at + 6],
        s[at + 7],
    ])
}

// How many of the eight octets at a place are of 21-7E, up to the first that is not; none where eight are not left.
pub fn leading(s: &[u8], at: usize) -> usize
    ensures { result ≡ leading_of s.now at }
{
    if at <= s.len() && 8 <= s.len() - at {
        led(word(s, at))
    } else {
        0
    }
}
