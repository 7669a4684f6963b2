// The writer of X11R5 strings: from a list of unit records to the octets of its units, each where its set always stands, and the 00 that ends them.
#![tactic(auto)]

ghost use Rattle.std.specs.Prelude.{◌≡◌, ◌≤◌, length};
ghost use Rattle.write.specs.Stowed.{quick_run};
ghost use Rattle.x11r5.specs.Records.{r5_writer_answer, r5_writer_output};

use base::{Answer, Unit};
use record_rules::plain::plain;

// How many of the first n records the quick check lets through, up to the first that it does not. In a loop of its own, so that the compiler keeps all
// that it needs in registers.
// By an index: the writer took 1.1 times as long with a `for`.
fn plain_run(units: &[Unit], n: usize) -> usize
    requires { n ≤ length units.now }
    ensures { result ≡ quick_run units.now n 0 }
{
    let mut i: usize = 0;
    while i < n {
        if plain(units[i]) {
            i += 1;
        } else {
            return i;
        }
    }
    i
}

// Writes the units of a list as an X11R5 string with its 00, or answers why not. The octets of segments only tell what an extended segment is refused for.
pub fn write(units: &[Unit], segments: &[u8], out: &mut [u8]) -> Answer
    ensures { (result ≡ r5_writer_answer units.now segments.now (length out.old))
        × (out.new ≡ r5_writer_output units.now segments.now out.old) }
{
    let n = check_list::looked_at(units.len());
    let run = plain_run(units, r5_pen::looked_first(n, out.len()));
    let mut pen = r5_pen::begin(run, n, out.len());
    let mut i = pen.index;
    while i < n {
        pen = r5_pen::turn(pen, units[i], n, segments, out);
        i = pen.index;
    }
    r5_pen::finish(pen, units.len(), out)
}
