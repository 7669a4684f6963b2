// The archive reader for C: for every string the answers and units of `ctext_check` and `ctext_read`, by the table of what each octet starts.
ghost use Rattle.std.specs.Prelude.{◌≡◌, length};
ghost use Rattle.grammar.specs.Reading.{check_of};
ghost use Rattle.read.specs.Listing.{read_answer, list_after};

use base::{Answer, Unit};

// Whether a string is accepted, and what of it is refused.
#[unsafe(no_mangle)]
pub extern "C" fn ctext_archive_check(s: &[u8]) -> Answer
    ensures { result ≡ check_of s.now }
{
    archive::check(s)
}

// The units of a string are stored from the list's first place on, and the rest of it stays; a refusal stores none.
#[unsafe(no_mangle)]
pub extern "C" fn ctext_archive_read(s: &[u8], units: &mut [Unit]) -> Answer
    ensures { (result ≡ read_answer s.now (length units.old))
        × (units.new ≡ list_after s.now units.old) }
{
    archive::read(s, units)
}
