// The units of a string, in a list that the caller lends.
#![tactic(auto)]

ghost use Rattle.std.specs.Prelude.{◌≡◌, ◌+◌, ◌≤◌, length};
ghost use Rattle.spans.specs.Spans.{Fits};
ghost use Rattle.read.specs.Stores.{count_from, stored_from};
ghost use Rattle.read.specs.Listing.{read_answer, stored_of, list_after};

use crate::numbered::{moved, nth, stands_at};
use base::{Answer, Unit, refusal};
use cursor::Cursor;
use spans::{Span, span_at};

mod numbered;

// What a string and a list of so many records are answered.
pub fn answer(s: &[u8], room: usize) -> Answer
    ensures { result ≡ read_answer s.now room }
{
    let a = check_string::answer(s);
    if a.number == refusal::ACCEPTED {
        if room < a.count {
            return Answer::no_room(a.count);
        }
        return a;
    }
    a
}

// How many records an answer stores.
fn stored(a: Answer) -> usize
    ensures { result ≡ stored_of a }
{
    let number = a.number;
    if number == refusal::ACCEPTED {
        return a.count;
    }
    0
}

// Stores the units of a span from a place of the list on, and answers how many.
fn fill(s: &[u8], r: Span, units: &mut [Unit], start: usize) -> usize
    requires { Fits s.now r × (start + r.most ≤ length units.old) }
    ensures { (result ≡ count_from s.now r r.most 0)
        × (units.new ≡ stored_from s.now r start r.most 0 units.old) }
{
    let n = r.most;
    let mut j: usize = 0;
    while j < n {
        if stands_at(s, r, j) {
            units[start + j] = nth(s, r, j);
            j += 1;
        } else {
            return j;
        }
    }
    j
}

// The units of a string are stored from the list's first place on, and the rest of it stays; a refusal stores none.
pub fn read(s: &[u8], units: &mut [Unit]) -> Answer
    ensures { (result ≡ read_answer s.now (length units.old))
        × (units.new ≡ list_after s.now units.old) }
{
    let a = answer(s, units.len());
    let n = stored(a);
    let mut c = Cursor::first();
    let mut i: usize = 0;
    while i < n {
        let r = span_at(s, c, n - i);
        let k = fill(s, r, units, i);
        c = moved(r, k);
        i += k;
    }
    a
}
