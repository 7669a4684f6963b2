// The units of a string one by one, from a reader that keeps hold of the string, its place and its state.
#![tactic(auto)]

ghost use Rattle.std.specs.Prelude.{◌≡◌, length};
ghost use Rattle.base.specs.Refusal.{number_if};
ghost use Rattle.units.specs.Next.{outcome_seen};
ghost use Rattle.reader.specs.Step.{stepped, may_stand, counted_of, ended_of, after_of, step_at};
ghost use Rattle.reader.specs.Reader.{opened, item_at, moved};

use base::{Answer, Refusal, Unit, limit};
use charset::Side;
use state::State;
use units::{Given, Stopped};

// What is handed out: a unit, or the answer once there is no further unit.
pub type Item = Result<Unit, Answer>;

// A place of a string and the state there, and how many units were handed out before.
#[derive(Clone, Copy)]
pub struct Reader<'a> {
    pub octets: &'a [u8],
    pub place: usize,
    pub count: usize,
    pub state: State,
}

// An item, and the place, the count and the state after it.
#[derive(Clone, Copy)]
pub struct Stepped {
    pub place: usize,
    pub count: usize,
    pub state: State,
    pub item: Item,
}

// Whether a reader may stand at a place of a string of so many octets, under a state.
#[tactic(auto, using(base::proofs::Ladder::ladder), unfolding(crate::specs::Step::may_stand))]
pub fn may_stand(octets: usize, place: usize, state: State) -> bool
    ensures { result ≡ may_stand octets place state }
{
    place <= octets
        && charset::may_use(Side::GL, state.sets.gl)
        && charset::may_use(Side::GR, state.sets.gr)
        && state.directions.depth <= limit::DEPTH
}

// One more unit; the largest number stays.
#[tactic(auto, using(base::proofs::Ladder::ladder), unfolding(crate::specs::Step::counted_of))]
fn counted(count: usize) -> usize
    ensures { result ≡ counted_of count }
{
    count.saturating_add(1)
}

// The answer at the end, where nothing is refused, or at a refusal, after so many units.
#[tactic(auto, using(base::proofs::Ladder::ladder), unfolding(crate::specs::Step::ended_of))]
fn ended(refusal: Option<Refusal>, place: usize, count: usize) -> Answer
    ensures { result ≡ ended_of (number_if refusal) place count }
{
    match refusal {
        None => Answer::accepted(place, count),
        Some(refusal) => refusal.at(place),
    }
}

// An answer, and where the reader stands with it.
fn stands(place: usize, count: usize, state: State, answer: Answer) -> Stepped
    ensures { result ≡ stepped (Err answer) place count state }
{
    Stepped {
        place,
        count,
        state,
        item: Err(answer),
    }
}

// The step to the next unit; where there is none, to where the reading stops.
#[tactic(auto, using(base::proofs::Ladder::ladder), unfolding(crate::specs::Step::after_of))]
fn after(count: usize, o: Result<Given, Stopped>) -> Stepped
    ensures { result ≡ after_of count (outcome_seen o) }
{
    match o {
        Ok(given) => Stepped {
            place: given.place,
            count: counted(count),
            state: given.state,
            item: Ok(given.unit),
        },
        Err(stop) => {
            let answer = ended(stop.refusal, stop.place, count);
            stands(stop.start, count, stop.state, answer)
        }
    }
}

// A step from a place and a state of a string, after so many units.
#[tactic(auto, using(base::proofs::Ladder::ladder), unfolding(crate::specs::Step::step_at))]
pub fn step(s: &[u8], place: usize, count: usize, state: State) -> Stepped
    ensures { result ≡ step_at s.now place count state }
{
    if limit::OCTETS < s.len() {
        return stands(place, count, state, Refusal::TooLong.at(0));
    }
    if may_stand(s.len(), place, state) {
        return after(count, units::next_unit(s, place, state));
    }
    stands(place, count, state, Refusal::BadUnit.at(0))
}

// A reader at the start of a string.
pub fn open(s: &[u8]) -> Reader<'_>
    ensures { result ≡ opened s.entry }
{
    Reader {
        octets: s,
        place: 0,
        count: 0,
        state: State::FRESH,
    }
}

// The next item, and the reader moves on.
pub fn next(r: &mut Reader<'_>) -> Item
    ensures { (result ≡ item_at r.old) × (r.new ≡ moved r.old) }
{
    let t = step(r.octets, r.place, r.count, r.state);
    r.place = t.place;
    r.count = t.count;
    r.state = t.state;
    t.item
}
