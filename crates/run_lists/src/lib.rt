// Several runs a call, into a list that the caller lends.
#![tactic(auto)]

ghost use Rattle.std.specs.Prelude.{◌≡◌, true, ◌+◌, ◌*◌, ◌≤◌, ◌<◌, ◌^◌, length};
ghost use Rattle.base.specs.Limit as limits;
ghost use Rattle.stretch.specs.Characters.{settled_of};
ghost use Rattle.state.specs.Directions.{in_force_of};
ghost use Rattle.pieces.specs.Pieces.{viewed};
ghost use Rattle.runs.specs.Runs.{shown_of};
ghost use Rattle.runs.specs.Steps.{position};
ghost use Rattle.run_lists.specs.Listed.{word_of, upper_of, words_after, runs_step, end_of, given_from, checked_runs, next_runs_of, stand, Onward};

use base::{Answer, Refusal, limit, refusal};
use designations::designation_at;
use pieces::Piece;
use run_ends::{left_end, right_end, text_end};
use runs::stepping::{RunPosition, known, stopped};
use state::State;
use stretch::characters::settled;

// The position after several runs, and the answer: how many were stored, or why none could be. It and `RunStep` of `runs` are no one generic
// struct: C's structs, and the definitions, name `run` and `answer` apart.
#[derive(Clone, Copy)]
pub struct RunsStep {
    pub position: RunPosition,
    pub answer: Answer,
}

// Where a list has come to: the place and the state there, and how many runs are stored.
#[derive(Clone, Copy)]
struct Stand {
    place: usize,
    count: usize,
    state: State,
}

// A refusal, and the position stays.
fn stays(position: RunPosition, answer: Answer) -> RunsStep
    ensures { result ≡ runs_step position answer }
{
    RunsStep { position, answer }
}

// A step to a place of a string that is taken for accepted.
fn step_to(place: usize, state: State, answer: Answer) -> RunsStep
    ensures { result ≡ runs_step (position place state true) answer }
{
    RunsStep {
        position: RunPosition {
            place,
            state,
            checked: true,
        },
        answer,
    }
}

fn stand_at(place: usize, count: usize, state: State) -> Stand
    ensures { result ≡ stand place count state }
{
    Stand {
        place,
        count,
        state,
    }
}

// The part of a word that the runs of a set have in common under a direction.
fn upper(set: u8, direction: u8) -> u64
    ensures { (result ≡ upper_of set direction) × (result < 2 ^ 57) }
{
    let width = runs::width(set);
    set as u64 * 0x1_0000_0000
        + width as u64 * 0x100_0000_0000
        + direction as u64 * 0x1_0000_0000_0000
}

fn joined(start: usize, end: usize, part: u64) -> u64
    requires { (start ≤ limits.octets) × (end ≤ limits.octets) × (part < 2 ^ 57) }
    ensures { result ≡ start + end * 0x10000 + part }
{
    start as u64 + end as u64 * 0x1_0000 + part
}

// A run as a word, and no struct: the list that C lends holds words (`ctext_next_runs`).
fn word(run: Piece) -> u64
    requires { (run.start ≤ limits.octets) × (run.end ≤ limits.octets) }
    ensures { result ≡ word_of (shown_of 0 (viewed run)) }
{
    let set = pieces::set_in(run.state.sets, run.kind.number());
    let part = upper(set, run.state.directions.in_force());
    joined(run.start, run.end, part)
}

// Runs and designations from a place on, in a state that text leaves as it is, up to any other element or until the list is full. In a loop of
// its own, which names the span of each side, so that the compiler keeps all that it needs in registers.
fn list_text(s: &[u8], l: Stand, direction: u8, out: &mut [u64]) -> Stand
    requires { (length s.now ≤ limits.octets) × (settled_of l.state.directions ≡ true) × (direction ≡ in_force_of l.state.directions) }
    ensures { Onward s.now l out.old result out.new }
{
    let mut at = l.place;
    let mut k = l.count;
    let mut st = l.state;
    let mut left = upper(st.sets.gl, direction);
    let mut right = upper(st.sets.gr, direction);
    while k < out.len() {
        if s.len() <= at {
            return stand_at(at, k, st);
        }
        if s[at] < 0x80 {
            let end = left_end(s, at, st.sets);
            if at < end {
                out[k] = joined(at, end, left);
                k += 1;
                at = end;
                continue;
            }
        } else {
            let end = right_end(s, at, st.sets);
            if at < end {
                out[k] = joined(at, end, right);
                k += 1;
                at = end;
                continue;
            }
        }
        let Ok(d) = designation_at(s, at) else {
            return stand_at(at, k, st);
        };
        at += d.octets;
        st = st.designated(d.side, d.set);
        left = upper(st.sets.gl, direction);
        right = upper(st.sets.gr, direction);
    }
    stand_at(at, k, st)
}

// The same, where text leaves the state as it is, and else nothing.
fn list_quickly(s: &[u8], l: Stand, out: &mut [u64]) -> Stand
    requires { length s.now ≤ limits.octets }
    ensures { Onward s.now l out.old result out.new }
{
    if settled(l.state.directions) {
        list_text(s, l, l.state.directions.in_force(), out)
    } else {
        l
    }
}

// The answer where no run is shown after k.
#[tactic(auto, using(base::proofs::Ladder::ladder), unfolding(crate::specs::Listed::end_of))]
fn end_of(n: usize, k: usize, answer: Answer) -> Answer
    ensures { result ≡ end_of n k answer }
{
    if k == 0 && answer.number != Refusal::BadUnit.number() {
        answer
    } else {
        Answer::accepted(n, k)
    }
}

// The runs from a place and a state on. What is no character or space that leaves the state as it is, and no designation, is passed by itself.
fn list_from(s: &[u8], place: usize, state: State, out: &mut [u64]) -> RunsStep
    requires { length s.now ≤ limits.octets }
    ensures { (result ≡ (given_from s.now 0 (length out.old) place state).step)
        × (out.new ≡ words_after (given_from s.now 0 (length out.old) place state).runs out.old) }
{
    let mut l = stand_at(place, 0, state);
    loop {
        l = list_quickly(s, l, out);
        let Stand {
            place: at,
            count: k,
            state: st,
        } = l;
        if out.len() <= k {
            return step_to(at, st, Answer::accepted(s.len(), k));
        }
        let Some(next) = pieces::piece_at(s, at, st) else {
            return step_to(at, st, end_of(s.len(), k, stopped(s, at, st)));
        };
        let after = next.state;
        if next.kind.is_run() {
            let end = text_end(s, next.end, after.sets, next.kind.number());
            out[k] = word(Piece { end, ..next });
            l = stand_at(end, k + 1, after);
            continue;
        }
        l = stand_at(next.end, k, after);
    }
}

// The runs from a position on; the string is checked where that is not done yet.
fn list_checked(s: &[u8], p: RunPosition, out: &mut [u64]) -> RunsStep
    requires { length s.now ≤ limits.octets }
    ensures { (result ≡ (checked_runs s.now p (length out.old)).step)
        × (out.new ≡ words_after (checked_runs s.now p (length out.old)).runs out.old) }
{
    let answer = known(s, p.checked);
    if answer.number == refusal::ACCEPTED {
        return list_from(s, p.place, p.state, out);
    }
    stays(p, answer)
}

// The next runs from a position, as many as the list has room for, and the position after them. The rest of the list stays.
pub fn next_runs(s: &[u8], p: RunPosition, out: &mut [u64]) -> RunsStep
    ensures { (result ≡ (next_runs_of s.now p (length out.old)).step)
        × (out.new ≡ words_after (next_runs_of s.now p (length out.old)).runs out.old) }
{
    if limit::OCTETS < s.len() {
        return stays(p, Refusal::TooLong.at(0));
    }
    if reader::may_stand(s.len(), p.place, p.state) {
        return list_checked(s, p, out);
    }
    stays(p, Refusal::BadUnit.at(0))
}
