// The reader of X11R5's strings, which a 00 ends: units into a list that the caller lends.
#![tactic(auto)]

ghost use Rattle.std.specs.Prelude.{◌≡◌, length};
ghost use Rattle.r5_read.specs.Listing.{r5_read_answer, r5_list_after};

use crate::look::look_over;
use base::{Answer, Unit};

mod look;
mod stops;

// The units of a string, up to its first 00, are stored from the list's first place on, and the rest of it stays; a refusal stores none. What is not
// refused at a look is left to the base reader, the faster of the two, whose contracts are one; of what is, it is given no octets, which leaves the list.
pub fn read(s: &[u8], units: &mut [Unit]) -> Answer
    ensures { (result ≡ r5_read_answer s.now (length units.old))
        × (units.new ≡ r5_list_after s.now units.old) }
{
    let looked = look_over(s);
    let answer = archive::read(&s[..looked.unwrap_or(0)], units);
    looked.err().unwrap_or(answer)
}
