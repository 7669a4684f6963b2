// The writer: from a list of unit records to the shortest string that reads as it.
#![tactic(auto)]

ghost use Rattle.std.specs.Prelude.{◌≡◌, ◌≤◌, length};
ghost use Rattle.shortest.specs.Records.{writer_answer, writer_output};
ghost use Rattle.shortest.specs.Demand3.{Demand3For};
ghost use Rattle.write.specs.Stowed.{quick_end, Passed, finish_answer, finish_output};

use base::{Answer, Refusal, Unit, limit};
use check_list::Progress;

// Checks the records from a place on quickly, and puts them into their rows, up to the first that this check does not let through, whose
// place is the answer. In a loop of its own, so that the compiler keeps all that it needs in registers.
// By an index: `write` of characters took 1.1 times as long with a `for`.
fn stow_quickly(progress: Progress, units: &[Unit], from: usize, n: usize, work: &mut [u8]) -> usize
    requires { (from ≤ n) × (n ≤ length units.now) }
    ensures { (result ≡ quick_end progress units.now from n)
        × Passed progress units.now from (quick_end progress units.now from n) work.old work.new }
{
    let mut end = check_list::quick_until(progress, from, n);
    let mut i = from;
    while i < end {
        if check_list::quick_turn(units[i], i, work) {
            i += 1;
        } else {
            end = i;
        }
    }
    i
}

// The answer once the list is checked.
pub fn finish(
    progress: Progress,
    n: usize,
    segments: &[u8],
    work: &mut [u8],
    out: &mut [u8],
) -> Answer
    ensures { (result ≡ finish_answer progress n segments.now work.old (length out.old))
        × (out.new ≡ finish_output progress n segments.now work.old out.old)
        × (length work.new ≡ length work.old) }
{
    if limit::UNITS < n {
        return Refusal::TooLong.at(0);
    }
    match progress {
        Ok(_) => emit::write_rows(work, n, segments, out),
        Err(first) => Answer::refused(first.number, first.place),
    }
}

// Writes the units of a list, whose extended segments stand in the octets lent, as the shortest string, or answers why not: each record is
// checked, and put into its row of the work room. The work room is to have 72 octets for each unit and 72 more. What it holds after is left
// open; it keeps its length.
pub fn write(units: &[Unit], segments: &[u8], work: &mut [u8], out: &mut [u8]) -> Answer
    ensures { (result ≡ writer_answer units.now segments.now (length work.old) (length out.old))
        × (out.new ≡ writer_output units.now segments.now (length work.old) out.old)
        × (length work.new ≡ length work.old)
        × Demand3For units.now segments.now (length work.old) out.old result out.new }
{
    let n = check_list::looked_at(units.len());
    let mut progress = check_list::begin();
    let mut i = 0;
    while i < n {
        progress = check_list::turn(progress, units[i], i, segments, work);
        i = stow_quickly(progress, units, i + 1, n, work);
    }
    finish(progress, units.len(), segments, work, out)
}
