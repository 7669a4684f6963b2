// The form of octets in a resource file: what stands first in it, and how long the form of an octet is.
#![tactic(auto)]

ghost use Rattle.std.specs.Prelude.{◌≡◌, length};
ghost use Rattle.base.specs.Choice.{from};
ghost use Rattle.resource_form.specs.Form.{octet_form, zero_first, form_zeros, form_escape, form_first};

pub const BACKSLASH: u8 = 0x5C;

pub const NEWLINE: u8 = 0x0A;

pub const NUL: u8 = 0x00;

// what stands for a newline, and three times for an octet 00, after a backslash
pub const LETTER_N: u8 = 0x6E;

pub const DIGIT_0: u8 = 0x30;

// What stands first in a form: an octet, and the number of octets that stand for it.
#[derive(Clone, Copy)]
pub struct First {
    pub octet: u8,
    pub size: usize,
}

// The octets of the form of an octet. It has no branch, so that counting those of a string is done several octets at a time.
pub fn size(octet: u8) -> u8
    ensures { result ≡ length (octet_form octet) }
{
    1 + (octet == BACKSLASH) as u8 + (octet == NEWLINE) as u8 + (octet == NUL) as u8 * 3
}

// Whether a digit 0 stands at a place.
#[tactic(auto, using(crate::proofs::Steps::form_steps))]
fn zero_at(form: &[u8], at: usize) -> bool
    ensures { result ≡ zero_first (from at form.now) }
{
    at < form.len() && form[at] == DIGIT_0
}

// The two digits that end the escape of an octet 00, from a place on.
fn zeros_at(form: &[u8], at: usize) -> Option<First>
    ensures { result ≡ form_zeros (from at form.now) }
{
    if zero_at(form, at) && zero_at(form, at + 1) {
        Some(First {
            octet: NUL,
            size: 4,
        })
    } else {
        None
    }
}

// The escape whose octets after the backslash start at a place; none where nothing stands there that an escape may go on with.
pub fn escape_at(form: &[u8], at: usize) -> Option<First>
    ensures { result ≡ form_escape (from at form.now) }
{
    match *form.get(at)? {
        BACKSLASH => Some(First {
            octet: BACKSLASH,
            size: 2,
        }),
        LETTER_N => Some(First {
            octet: NEWLINE,
            size: 2,
        }),
        DIGIT_0 => zeros_at(form, at + 1),
        _ => None,
    }
}

// What stands first in the octets from a place on; none where nothing stands there that a form may begin with.
pub fn first_at(form: &[u8], at: usize) -> Option<First>
    ensures { result ≡ form_first (from at form.now) }
{
    match *form.get(at)? {
        BACKSLASH => escape_at(form, at + 1),
        NEWLINE | NUL => None,
        octet => Some(First { octet, size: 1 }),
    }
}
