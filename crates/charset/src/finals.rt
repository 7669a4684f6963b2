// The sets that the final octets of designations name, and the final octets of sets.
ghost use Rattle.std.specs.Prelude.{◌≡◌};
ghost use Rattle.charset.specs.Finals.{after_gl94, after_gr94, after_gr96, after94x94, named_of};

use crate::NO_SET;

// The final octets of the sets, less 40: that of set 0 in the lowest four binary digits.
pub const OF_SETS: u64 = 0x0321_DC87_6432_1A92;

// The sets of 94 in GL, after 1B 28.
pub fn gl_94(last: u8) -> u8
    ensures { result ≡ after_gl94 last }
{
    match last {
        0x42 => 0,
        0x4A => 2,
        _ => NO_SET,
    }
}

// Those of 94 in GR, after 1B 29.
pub fn gr_94(last: u8) -> u8
    ensures { result ≡ after_gr94 last }
{
    match last {
        0x49 => 1,
        _ => NO_SET,
    }
}

// Those of 96, after 1B 2D.
pub fn gr_96(last: u8) -> u8
    ensures { result ≡ after_gr96 last }
{
    match last {
        0x41 => 3,
        0x42 => 4,
        0x43 => 5,
        0x44 => 6,
        0x46 => 7,
        0x47 => 8,
        0x48 => 9,
        0x4C => 10,
        0x4D => 11,
        _ => NO_SET,
    }
}

// Those of 94 by 94, after 1B 24 28 and 1B 24 29.
pub fn either_94x94(last: u8) -> u8
    ensures { result ≡ after94x94 last }
{
    match last {
        0x41 => 12,
        0x42 => 13,
        0x43 => 14,
        _ => NO_SET,
    }
}

// The sets that a final octet names, as sixteen numbers of four binary digits: after 1B 28 the lowest, after 1B 29 the next, after 1B 2D that of
// place 5; after 1B 24 28 and 1B 24 29 those of places 8 and 9. Every other is the number of no set.
pub fn named(last: u8) -> u64
    ensures { result ≡ named_of last }
{
    match last {
        0x41 => 0xFFFF_FFCC_FF3F_FFFF,
        0x42 => 0xFFFF_FFDD_FF4F_FFF0,
        0x43 => 0xFFFF_FFEE_FF5F_FFFF,
        0x44 => 0xFFFF_FFFF_FF6F_FFFF,
        0x46 => 0xFFFF_FFFF_FF7F_FFFF,
        0x47 => 0xFFFF_FFFF_FF8F_FFFF,
        0x48 => 0xFFFF_FFFF_FF9F_FFFF,
        0x49 => 0xFFFF_FFFF_FFFF_FF1F,
        0x4A => 0xFFFF_FFFF_FFFF_FFF2,
        0x4C => 0xFFFF_FFFF_FFAF_FFFF,
        0x4D => 0xFFFF_FFFF_FFBF_FFFF,
        _ => 0xFFFF_FFFF_FFFF_FFFF,
    }
}
