// A look at a string before its units are read: whether it is refused, or left to the base reader.
ghost use Rattle.std.specs.Prelude.{◌≡◌};
ghost use Rattle.base.specs.Answers.{refused_at};
ghost use Rattle.base.specs.Refusal as refusals;
ghost use Rattle.r5_read.specs.Look.{Looked};

use crate::stops::{first_stop, null_from};
use base::{Answer, Refusal, refusal};
use r5_check::check;

// The answer for a string of n octets that no 00 ends, however long it is.
fn endless(n: usize) -> Answer
    ensures { result ≡ refused_at refusals.not_ended n }
{
    Refusal::NotEnded.at(n)
}

// How many octets are left to the base reader, or the answer where the string is refused; that no 00 ends it is asked before all. Most strings have
// nothing before their 00 at which the quick look stops; others are checked here.
pub fn look_over(s: &[u8]) -> Result<usize, Answer>
    ensures { Looked s.now result }
{
    let at = first_stop(s);
    let end = null_from(s, at);
    if end == s.len() {
        return Err(endless(end));
    }
    if at < end {
        let a = check(&s[..end]);
        if a.number != refusal::ACCEPTED {
            return Err(a);
        }
    }
    Ok(end)
}
