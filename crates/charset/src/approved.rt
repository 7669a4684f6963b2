// The fifteen approved sets: one constant table, and the row of a set. What else the code knows of a set is read from its row, or proved to
// be what the row says.
ghost use Rattle.std.specs.Prelude.{◌≡◌};
ghost use Rattle.charset.specs.Charsets.{charset_of};

use crate::{FORM_94, FORM_94X94, FORM_96};

// A row: the set's form, the final octet of its designations, whether it may stand in GL, whether in GR, and the octets of a character.
#[repr(C)]
#[derive(Clone, Copy)]
pub struct Charset(pub u8, pub u8, pub bool, pub bool, pub u8);

pub const APPROVED: [Charset; 15] = [
    Charset(FORM_94, 0x42, true, false, 1), // 0 ASCII
    Charset(FORM_94, 0x49, false, true, 1), // 1 JIS X0201 right
    Charset(FORM_94, 0x4A, true, false, 1), // 2 JIS X0201 left
    Charset(FORM_96, 0x41, false, true, 1), // 3 ISO 8859-1 right
    Charset(FORM_96, 0x42, false, true, 1), // 4 ISO 8859-2 right
    Charset(FORM_96, 0x43, false, true, 1), // 5 ISO 8859-3 right
    Charset(FORM_96, 0x44, false, true, 1), // 6 ISO 8859-4 right
    Charset(FORM_96, 0x46, false, true, 1), // 7 ISO 8859-7 right
    Charset(FORM_96, 0x47, false, true, 1), // 8 ISO 8859-6 right
    Charset(FORM_96, 0x48, false, true, 1), // 9 ISO 8859-8 right
    Charset(FORM_96, 0x4C, false, true, 1), // 10 ISO 8859-5 right
    Charset(FORM_96, 0x4D, false, true, 1), // 11 ISO 8859-9 right
    Charset(FORM_94X94, 0x41, true, true, 2), // 12 GB 2312
    Charset(FORM_94X94, 0x42, true, true, 2), // 13 JIS X0208
    Charset(FORM_94X94, 0x43, true, true, 2), // 14 KS C5601
];

// The row of a number that is no set's.
pub const NONE: Charset = Charset(0, 0, false, false, 0);

// The row of a set. The place in the table is a constant in each arm: by an index that is computed, the whole table would be built on the
// stack at each call, and of these arms the compiler makes a table of constants for each field that is asked for.
pub fn row_of(set: u8) -> Charset
    ensures { result ≡ charset_of set }
{
    let rows = APPROVED;
    match set {
        0 => rows[0],
        1 => rows[1],
        2 => rows[2],
        3 => rows[3],
        4 => rows[4],
        5 => rows[5],
        6 => rows[6],
        7 => rows[7],
        8 => rows[8],
        9 => rows[9],
        10 => rows[10],
        11 => rows[11],
        12 => rows[12],
        13 => rows[13],
        14 => rows[14],
        _ => NONE,
    }
}
