// The line `refused N at P`. It is made in a buffer from its end to its start, since a number's last digit is found first.
#![tactic(auto)]

ghost use Rattle.std.specs.Prelude.{◌+◌, ◌-◌, ◌≤◌, ◌≡◌, ◌++◌, length, drop};
ghost use Rattle.base.specs.Output.{stored_in};
ghost use Rattle.refusal_line.specs.Line.{decimal, refusal_line};

// Puts the octets of a text before the place `end`, and answers where they start.
fn put(text: &[u8], buffer: &mut [u8], end: usize) -> usize
    requires { (length text.now ≤ end) × (end ≤ length buffer.old) }
    ensures { (result ≡ end - length text.now)
        × (drop result buffer.new ≡ text.now ++ drop end buffer.old)
        × (length buffer.new ≡ length buffer.old) }
{
    let mut i = text.len();
    let mut at = end;
    while 0 < i {
        i -= 1;
        at -= 1;
        buffer[at] = text[i];
    }
    at
}

// Puts the decimal digits of n before the place `end`, and answers where they start.
fn put_decimal(n: usize, buffer: &mut [u8], end: usize) -> usize
    requires { (20 ≤ end) × (end ≤ length buffer.old) }
    ensures { ((end ≤ result + 20) × (result ≤ end))
        × (drop result buffer.new ≡ decimal n ++ drop end buffer.old)
        × (length buffer.new ≡ length buffer.old) }
{
    let mut at = end;
    let mut rest = n;
    while 10 <= rest {
        at -= 1;
        buffer[at] = b'0' + (rest % 10) as u8;
        rest /= 10;
    }
    at -= 1;
    buffer[at] = b'0' + (rest % 10) as u8;
    at
}

// Makes the line in a buffer of 64 octets, and answers where it starts.
fn make(number: u8, place: usize, buffer: &mut [u8]) -> usize
    requires { length buffer.old ≡ 64 }
    ensures { (result ≤ 64) × (drop result buffer.new ≡ refusal_line number place) × (length buffer.new ≡ 64) }
{
    let newline = put(b"\n", buffer, 64);
    let place_at = put_decimal(place, buffer, newline);
    let at = put(b" at ", buffer, place_at);
    let number_at = put_decimal(number as usize, buffer, at);
    put(b"refused ", buffer, number_at)
}

// Stores the line from the output's first place on, where it has room for it, and answers the line's length.
pub fn refused(number: u8, place: usize, out: &mut [u8]) -> usize
    ensures { (result ≡ length (refusal_line number place))
        × (out.new ≡ stored_in (refusal_line number place) out.old)
        × (result ≤ 64) }
{
    let mut buffer = [0u8; 64];
    let start = make(number, place, &mut buffer);
    let n = 64 - start;
    if n <= out.len() {
        put(&buffer[start..], out, n);
    }
    n
}
