// The table of sets for C.
ghost use Rattle.std.specs.Prelude.{◌≡◌, eqb};
ghost use Rattle.base.specs.Choice.{pick};
ghost use Rattle.charset.specs.Charsets.{no_set, charset_of, set_of};
ghost use Rattle.charset.specs.declared.Side.TheVariants.{GL, GR};

use charset::approved::{Charset, row_of};
use charset::{NO_SET, Side, set_of};

// The row of a set.
#[unsafe(no_mangle)]
pub extern "C" fn ctext_set_row(set: u8) -> Charset
    ensures { result ≡ charset_of set }
{
    row_of(set)
}

// The set that a designation names by its form, its side (0 is GL, 1 is GR) and its final octet.
#[tactic(auto, using(base::proofs::Ladder::ladder))]
#[unsafe(no_mangle)]
pub extern "C" fn ctext_set_of(form: u8, side: u8, last: u8) -> u8
    ensures { result ≡ pick (eqb side 0) (set_of form GL last) (pick (eqb side 1) (set_of form GR last) no_set) }
{
    match side {
        0 => set_of(form, Side::GL, last),
        1 => set_of(form, Side::GR, last),
        _ => NO_SET,
    }
}
