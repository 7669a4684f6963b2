// Writing a form: its octets are counted first, and stored where the output has room for all of them.
ghost use Rattle.std.specs.Prelude.{◌+◌, ◌≤◌, ◌≡◌, [], ◌∷◌, length};
ghost use Rattle.std.proofs.lemmas.List.Edits.{sets};
ghost use Rattle.base.specs.Limit.{octets};
ghost use Rattle.base.specs.Output.{stored_in};
ghost use Rattle.resource_form.specs.Form.{backslash, digit_0, octet_form, resource_form};
ghost use Rattle.resource_form.specs.Conversion.{to_form, conversion_answer, conversion_output};

use base::{Answer, Refusal, limit};
use resource_form::{BACKSLASH, DIGIT_0, LETTER_N, NEWLINE, NUL};

// The octets of a string's form. They are counted in 32 bits, which suffice and are done four at a time.
fn needed(s: &[u8]) -> usize
    requires { length s.now ≤ octets }
    ensures { result ≡ length (resource_form s.now) }
{
    let mut n: u32 = 0;
    for &octet in s {
        n += resource_form::size(octet) as u32;
    }
    n as usize
}

// Stores octets at a place, and answers the place after them.
fn put<const N: usize>(octets: [u8; N], at: usize, out: &mut [u8]) -> usize
    requires { at + length octets ≤ length out.old }
    ensures { (result ≡ at + length octets.entry) × (out.new ≡ sets out.old at octets.entry) }
{
    out[at..at + N].copy_from_slice(&octets);
    at + N
}

// Stores the form of an octet.
fn put_octet(octet: u8, at: usize, out: &mut [u8]) -> usize
    requires { at + length (octet_form octet) ≤ length out.old }
    ensures { (result ≡ at + length (octet_form octet)) × (out.new ≡ sets out.old at (octet_form octet)) }
{
    match octet {
        BACKSLASH => put([BACKSLASH, BACKSLASH], at, out),
        NEWLINE => put([BACKSLASH, LETTER_N], at, out),
        NUL => put([BACKSLASH, DIGIT_0, DIGIT_0, DIGIT_0], at, out),
        _ => put([octet], at, out),
    }
}

// Stores the form of a string, for which there is room.
fn store(s: &[u8], out: &mut [u8])
    requires { length (resource_form s.now) ≤ length out.old }
    ensures { out.new ≡ stored_in (resource_form s.now) out.old }
{
    let mut at = 0;
    for &octet in s {
        at = put_octet(octet, at, out);
    }
}

// Writes the form of a string at the start of the output.
pub fn write(s: &[u8], out: &mut [u8]) -> Answer
    ensures { (result ≡ conversion_answer (to_form s.now) (length s.now) (length out.old))
        × (out.new ≡ conversion_output (to_form s.now) out.old) }
{
    if limit::OCTETS < s.len() {
        return Refusal::TooLong.at(0);
    }
    let n = needed(s);
    if out.len() < n {
        return Answer::no_room(n);
    }
    store(s, out);
    Answer::accepted(s.len(), n)
}
