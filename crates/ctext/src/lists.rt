// Reading into, and writing of, a list of records that the caller lends, for C.
ghost use Rattle.std.specs.Prelude.{◌≡◌, length};
ghost use Rattle.read.specs.Listing.{read_answer, list_after};
ghost use Rattle.shortest.specs.Records.{writer_answer, writer_output};
ghost use Rattle.shortest.specs.Demand3.{Demand3For};

use base::{Answer, Unit};

// The units of a string are stored from the list's first place on, and the rest of it stays; a refusal stores none.
#[unsafe(no_mangle)]
pub extern "C" fn ctext_read(s: &[u8], units: &mut [Unit]) -> Answer
    ensures { (result ≡ read_answer s.now (length units.old))
        × (units.new ≡ list_after s.now units.old) }
{
    read::read(s, units)
}

// The units of a list, whose extended segments stand in the octets lent, are written as the shortest string, or the answer says why not.
// The work room is to have 72 octets for each unit and 72 more. What it holds after is left open; it keeps its length.
#[unsafe(no_mangle)]
pub extern "C" fn ctext_write(
    units: &[Unit],
    segments: &[u8],
    work: &mut [u8],
    out: &mut [u8],
) -> Answer
    ensures { (result ≡ writer_answer units.now segments.now (length work.old) (length out.old))
        × (out.new ≡ writer_output units.now segments.now (length work.old) out.old)
        × (length work.new ≡ length work.old)
        × Demand3For units.now segments.now (length work.old) out.old result out.new }
{
    write::write(units, segments, work, out)
}
