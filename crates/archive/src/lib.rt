// The archive reader: the check of a string, and its units in a list that the caller lends, by the table of what each octet starts.
#![tactic(auto)]

ghost use Rattle.std.specs.Prelude.{◌≡◌, length};
ghost use Rattle.grammar.specs.Reading.{check_of};
ghost use Rattle.octet_table.specs.Table.{table};
ghost use Rattle.read.specs.Listing.{read_answer, stored_of, list_after};

use crate::classes::Entries;
use crate::turns::{RowCursor, turn};
use crate::whole::check_by;
use base::{Answer, Unit, refusal};

mod classes;
mod quick;
mod turns;
mod whole;

// Whether a string is accepted, and what of it is refused: what `check_string::answer` says.
pub fn check(s: &[u8]) -> Answer
    ensures { result ≡ check_of s.now }
{
    let t = octet_table::table();
    check_by(&t, s)
}

// What a string and a list of so many records are answered.
fn answer(t: &Entries, s: &[u8], room: usize) -> Answer
    requires { t.now ≡ table }
    ensures { result ≡ read_answer s.now room }
{
    let a = check_by(t, s);
    if a.number == refusal::ACCEPTED && room < a.count {
        return Answer::no_room(a.count);
    }
    a
}

// How many records an answer stores.
#[tactic(auto, using(base::proofs::Ladder::ladder), unfolding(read::specs::Listing::stored_of))]
fn stored(a: Answer) -> usize
    ensures { result ≡ stored_of a }
{
    if a.number == refusal::ACCEPTED {
        a.count
    } else {
        0
    }
}

// The units of a string by the table that is lent.
fn read_by(t: &Entries, s: &[u8], units: &mut [Unit]) -> Answer
    requires { t.now ≡ table }
    ensures { (result ≡ read_answer s.now (length units.old))
        × (units.new ≡ list_after s.now units.old) }
{
    let a = answer(t, s, units.len());
    let mut c = RowCursor::first();
    for unit in &mut units[..stored(a)] {
        let r = turn(t, s, c);
        *unit = r.unit;
        c = r.cursor;
    }
    a
}

// The units of a string are stored from the list's first place on, and the rest of it stays; a refusal stores none: what `read::read` does.
pub fn read(s: &[u8], units: &mut [Unit]) -> Answer
    ensures { (result ≡ read_answer s.now (length units.old))
        × (units.new ≡ list_after s.now units.old) }
{
    let t = octet_table::table();
    read_by(&t, s, units)
}
