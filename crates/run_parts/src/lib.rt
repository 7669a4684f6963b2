// A run of a string by its number: where it lies, or as that very part of the string.
#![tactic(auto)]

ghost use Rattle.std.specs.Prelude.{◌≡◌, ◌-◌, ◌≤◌, length, get_or, take, drop};
ghost use Rattle.runs.specs.Runs.{run_at};
ghost use Rattle.run_parts.specs.Parts.{run_octets, StartsAt, Shown};

use base::refusal;
use runs::Bounds;
use runs::stepping::run_from;
use state::State;

pub mod view;

use crate::view::Run;

// The k-th run of a string: where it lies, and its numbers. Each call checks the string and steps to the run that is asked for, and where a
// step shows none, all after it answer the same. For all runs of a string there are `runs::stepping::next_run` and `run_lists::next_runs`.
pub fn run_at(s: &[u8], k: usize) -> Bounds
    ensures { result ≡ run_at s.now k }
{
    let checked = check_string::answer(s);
    if checked.number != refusal::ACCEPTED {
        return runs::no_run(checked);
    }
    let mut at: usize = 0;
    let mut st = State::FRESH;
    for _ in 0..k {
        let t = run_from(s, at, st);
        if t.run.answer.number != refusal::ACCEPTED {
            return t.run;
        }
        at = t.position.place;
        st = t.position.state;
    }
    run_from(s, at, st).run
}

// That very part of the string.
fn part(s: &[u8], start: usize, end: usize) -> &[u8]
    requires { (start ≤ end) × (end ≤ length s.now) }
    ensures { (result.now ≡ take (end - start) (drop start s.now)) × StartsAt result s.entry start }
{
    &s[start..end]
}

// The k-th run of a string, as that very part of it.
pub fn run(s: &[u8], k: usize) -> Run<'_>
    ensures { Shown s.entry k result }
{
    let b = run_at(s, k);
    Run {
        part: part(s, b.start, b.end),
        answer: b.answer,
        set: b.set,
        width: b.width,
        direction: b.direction,
    }
}

// The i-th octet of the k-th run, and 0 past its end, for callers that hold no run.
pub fn run_octet(s: &[u8], k: usize, i: usize) -> u8
    ensures { result ≡ get_or (run_octets s.now k) i 0 }
{
    let b = run_at(s, k);
    octet_blocks::octet(part(s, b.start, b.end), i)
}
