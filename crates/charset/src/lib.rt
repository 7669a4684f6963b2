// The fifteen sets: their forms, the sides they may use, and the set that a designation names.
#![tactic(auto)]

ghost use Rattle.std.specs.Prelude.{◌≡◌};
ghost use Rattle.charset.specs.Charsets.{row_of, form_of, width_of_form, allowed, set_of};
ghost use Rattle.charset.specs.Finals.{named_of};

pub mod approved;
mod finals;

// The two sides that a set can stand on: the octets below 128, and those from 128.
#[derive(Clone, Copy)]
pub enum Side {
    GL,
    GR,
}

// The forms of a set: 94 octets, 96 octets, 94 by 94 pairs of octets.
pub const FORM_94: u8 = 1;

pub const FORM_96: u8 = 2;

pub const FORM_94X94: u8 = 3;

// How many sets there are, and the number that stands for none.
pub const NO_SET: u8 = 15;

// The first of the sets of two octets, which are the last of the table.
pub const FIRST_DOUBLE: u8 = 12;

// The form of a set, 0 where there is no such set. By comparisons and not from its row, since `check` asks it at each stretch of text; that
// they say what the table says is one test of its rows (`form_rule`).
pub fn form_of(set: u8) -> u8
    ensures { result ≡ form_of set }
{
    if set < 3 {
        return FORM_94;
    }
    if set < FIRST_DOUBLE {
        return FORM_96;
    }
    if set < NO_SET {
        return FORM_94X94;
    }
    0
}

// Whether a set may stand on a side.
pub fn may_use(side: Side, set: u8) -> bool
    ensures { result ≡ allowed side set }
{
    let row = approved::row_of(set);
    match side {
        Side::GL => row.2,
        Side::GR => row.3,
    }
}

// The set that a designation names by its form, side and final octet.
pub fn set_of(form: u8, side: Side, last: u8) -> u8
    ensures { result ≡ set_of form side last }
{
    match side {
        Side::GL => match form {
            FORM_94 => finals::gl_94(last),
            FORM_94X94 => finals::either_94x94(last),
            _ => NO_SET,
        },
        Side::GR => match form {
            FORM_94 => finals::gr_94(last),
            FORM_96 => finals::gr_96(last),
            FORM_94X94 => finals::either_94x94(last),
            _ => NO_SET,
        },
    }
}

// The sets that a final octet names after each of the beginnings of a designation, four binary digits each (`finals::named`).
pub fn named_by(last: u8) -> u64
    ensures { result ≡ named_of last }
{
    finals::named(last)
}

// The final octet of a set's designations, 0 where there is no such set: 4, and the set's four binary digits in a word.
pub fn final_of(set: u8) -> u8
    ensures { result ≡ (row_of set).last }
{
    if NO_SET <= set {
        return 0;
    }
    (0x40 + (finals::OF_SETS >> (4 * set)) % 16) as u8
}

// The octets of a set's characters, 0 where there is no such set.
pub fn octets_of(set: u8) -> u8
    ensures { result ≡ width_of_form (form_of set) }
{
    let row = approved::row_of(set);
    row.4
}
