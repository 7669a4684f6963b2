// The library for C: each entry point under its name in `include/ctext.h`.
#![tactic(auto)]

ghost use Rattle.std.specs.Prelude.{◌≡◌};
ghost use Rattle.grammar.specs.Reading.{check_of};
ghost use Rattle.runs.specs.Runs.{run_at};

use base::Answer;
use runs::Bounds;

pub mod archives;
pub mod lists;
pub mod null_ended;
pub mod printing;
pub mod resources;
pub mod running;
pub mod sets;
pub mod stepping;

// Whether a string is accepted, and what of it is refused.
#[unsafe(no_mangle)]
pub extern "C" fn ctext_check(s: &[u8]) -> Answer
    ensures { result ≡ check_of s.now }
{
    check_string::answer(s)
}

// Where the k-th run of a string lies, and its numbers. Each call checks the string and reads it up to the run that is asked for: for all
// runs, `ctext_next_run`.
#[unsafe(no_mangle)]
pub extern "C" fn ctext_run(s: &[u8], k: usize) -> Bounds
    ensures { result ≡ run_at s.now k }
{
    run_parts::run_at(s, k)
}
