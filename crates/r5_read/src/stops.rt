// The places of a string at which a quick look stops: a 00, a 9B, and a 1B that 25 follows. 32 octets at a time, of which none is decided by
// itself, so the compiler compares them at once.
ghost use Rattle.std.specs.Prelude.{◌≡◌, ◌+◌, ◌<◌, ◌≤◌, length};
ghost use Rattle.r5_read.specs.Stops.{is_of, stop_by, Free, FirstStop, FirstNull};

// 1 for an octet that is another.
fn is(b: u8, x: u8) -> u8
    ensures { (result ≡ is_of b x) × (result ≤ 1) }
{
    u8::from(b == x)
}

// 1 for an octet at which it stops. By a sum and not by branches, which the compiler would keep.
fn stop(b: u8, next: u8) -> u8
    ensures { result ≡ stop_by b next }
{
    is(b, 0x00) + is(b, 0x9B) + is(b, 0x1B) * is(next, 0x25)
}

// How many of 32 octets at a place are such.
fn stops(s: &[u8], at: usize) -> u8
    requires { at + 33 ≤ length s.now }
    ensures { result ≡ 0 → Free s.now at (at + 32) }
{
    let mut n: u8 = 0;
    for j in 0..32 {
        n += stop(s[at + j], s[at + j + 1]);
    }
    n
}

// The place after the blocks of 32 that have none.
fn blocks_end(s: &[u8]) -> usize
    ensures { Free s.now 0 result }
{
    let mut i: usize = 0;
    while 33 <= s.len() - i && stops(s, i) == 0 {
        i += 32;
    }
    i
}

// The first such place, or the string's end.
pub fn first_stop(s: &[u8]) -> usize
    ensures { FirstStop s.now result }
{
    for i in blocks_end(s)..s.len() {
        if stop(s[i], octet_blocks::octet(s, i + 1)) == 1 {
            return i;
        }
    }
    s.len()
}

// The first 00 from a place on, or the string's end.
pub fn null_from(s: &[u8], at: usize) -> usize
    requires { at ≤ length s.now }
    ensures { FirstNull s.now at result }
{
    for i in at..s.len() {
        if s[i] == 0x00 {
            return i;
        }
    }
    s.len()
}
