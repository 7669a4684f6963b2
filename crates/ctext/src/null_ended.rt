// Strings of X11R5, which a 00 ends: read into, and written from, a list of records that the caller lends, for C.
ghost use Rattle.std.specs.Prelude.{◌≡◌, length};
ghost use Rattle.r5_read.specs.Listing.{r5_read_answer, r5_list_after};
ghost use Rattle.x11r5.specs.Records.{r5_writer_answer, r5_writer_output};

use base::{Answer, Unit};

// The units of a string, up to its first 00, are stored from the list's first place on, and the rest of it stays; a refusal stores none.
#[unsafe(no_mangle)]
pub extern "C" fn ctext_r5_read(s: &[u8], units: &mut [Unit]) -> Answer
    ensures { (result ≡ r5_read_answer s.now (length units.old))
        × (units.new ≡ r5_list_after s.now units.old) }
{
    r5_read::read(s, units)
}

// The units of a list are written with the 00 that ends them, or the answer says why not. The octets of segments only tell what an extended segment is
// refused for.
#[unsafe(no_mangle)]
pub extern "C" fn ctext_r5_write(units: &[Unit], segments: &[u8], out: &mut [u8]) -> Answer
    ensures { (result ≡ r5_writer_answer units.now segments.now (length out.old))
        × (out.new ≡ r5_writer_output units.now segments.now out.old) }
{
    r5_write::write(units, segments, out)
}
