// The check of a list of unit records, one record at a time: the first that offends is refused, by 11, 7, 8 and 9 in this order, and
// each before it goes into its row of the work room.
#![tactic(auto)]

ghost use Rattle.std.specs.Prelude.{◌≡◌, ◌<◌, length};
ghost use Rattle.base.specs.Choice.{pick};
ghost use Rattle.rows.specs.Rows.{with_record};
ghost use Rattle.rows.specs.Stowable.{stowable_of};
ghost use Rattle.record_rules.specs.Plain.{plain_of};
ghost use Rattle.check_list.specs.Turn.{begun, turn_of, room_after, looked_at, quick_until};

use base::{Answer, Unit, limit};
use record_rules::judge;
use record_rules::plain::{plain, settled};
use state::directions::Directions;

mod record;

// How far a list is checked: what the directions are after the last record, or the answer by the first record that offends. The answer and no struct of
// number and place: in a `Result` of 24 octets its number would lie where the directions do, and the compiler would take these apart, octet by octet, at
// each record, for which the processor waits where they are then read whole.
pub type Progress = Result<Directions, Answer>;

// Before the first record.
pub fn begin() -> Progress
    ensures { result ≡ begun }
{
    Ok(Directions::NONE)
}

// How many records of a list of n are looked at.
#[tactic(auto, unfolding(crate::specs::Turn::looked_at, base::specs::Choice::pick))]
pub fn looked_at(n: usize) -> usize
    ensures { result ≡ looked_at n }
{
    if n <= limit::UNITS { n } else { 0 }
}

// The end of the records from a place on that the quick check may look at: n where the directions are settled, else the place itself.
#[tactic(auto, unfolding(crate::specs::Turn::quick_until, base::specs::Choice::pick))]
pub fn quick_until(progress: Progress, from: usize, n: usize) -> usize
    ensures { result ≡ quick_until progress from n }
{
    match progress {
        Ok(directions) if settled(directions) => n,
        _ => from,
    }
}

// Record i, where the directions are settled: put into its row if the quick check lets it through, which is the answer.
pub fn quick_turn(unit: Unit, i: usize, work: &mut [u8]) -> bool
    ensures { (result ≡ plain_of unit) × (work.new ≡ pick (plain_of unit) (with_record work.old i unit) work.old) }
{
    if plain(unit) {
        record::put(unit, i, work);
        return true;
    }
    false
}

// Record i: checked, and put into its row where it is not refused and the work room has that row.
pub fn turn(progress: Progress, unit: Unit, i: usize, segments: &[u8], work: &mut [u8]) -> Progress
    ensures { (result ≡ turn_of segments.now unit i progress)
        × (work.new ≡ room_after (turn_of segments.now unit i progress) unit i work.old) }
{
    // by its arms and no `?`, so that the edit last_index can change the place alone
    let directions = match progress {
        Ok(directions) => directions,
        Err(first) => return Err(first),
    };
    match judge(unit, segments, directions) {
        Ok(next) => {
            record::put(unit, i, work);
            Ok(next)
        }
        Err(refusal) => Err(refusal.at(i)),
    }
}

// A record, unchecked: put into a row where it can stand in one and the work room has that row. For lists that are known to have no record
// that offends.
pub fn put(unit: Unit, row: usize, work: &mut [u8])
    ensures { work.new ≡ pick (stowable_of unit) (with_record work.old row unit) work.old }
{
    if record::stowable(unit) {
        record::put(unit, row, work);
    }
}
