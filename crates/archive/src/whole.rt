// The check of a whole string, by the table that is lent. The functions below `check_by` say of the string what holds where what is lent is the table.
ghost use Rattle.std.specs.Prelude.{◌≡◌, true, ◌≤◌, ◌<◌, length};
ghost use Rattle.grammar.specs.Reading.{check_of};
ghost use Rattle.octet_table.specs.Table.{table};
ghost use Rattle.state.specs.State.{state};
ghost use Rattle.archive_laws.specs.Passes.{text_class, TextAt, Leads, LeadsBy, Places};

use crate::classes::Entries;
use crate::quick::{Reach, blanks, quick};
use base::{Answer, Refusal, limit};
use charset::Side;
use designations::designation_at;
use octet_stretches::class_at;
use octet_table::{ONE_GL, ONE_GR, SPACE, TWO_GR, row_of};
use state::elements::{Refused, Shape};
use state::{Sets, State};
use stretch::characters::settled;

// A class of text: a space, or what a character starts with.
#[tactic(auto, using(base::proofs::Ladder::ladder), unfolding(archive_laws::specs::Passes::text_class))]
fn text_class(k: u8) -> bool
    ensures { result ≡ text_class k }
{
    matches!(k, ONE_GL..=SPACE | ONE_GR..=TWO_GR)
}

// Whether text is next at a place.
fn text_at(t: &Entries, s: &[u8], at: usize, sets: Sets) -> bool
    requires { at < length s.now }
    ensures { t.now ≡ table → result ≡ true → TextAt sets s.now at }
{
    let row = row_of(sets.gl, sets.gr);
    text_class(class_at(&t[row..row + 256], s, at))
}

// The state at a place where text is next and neither text nor a mark was read: text was read, which that element says too if it is not refused.
fn begun(t: &Entries, s: &[u8], at: usize, st: State) -> State
    requires { at < length s.now }
    ensures { t.now ≡ table → Leads s.now at st at result 0 }
{
    let mut directions = st.directions;
    if !directions.marked && !directions.texted && text_at(t, s, at, st.sets) {
        directions.texted = true;
        return st.directed(directions);
    }
    st
}

// The designations at a place, as many as follow each other.
fn placed(s: &[u8], at: usize, start: Sets) -> Reach
    requires { at ≤ length s.now }
    ensures { Places s.now at start result.place result.sets × (result.units ≡ 0) }
{
    let mut place = at;
    let mut sets = start;
    while place < s.len() && s[place] == 0x1B {
        let Ok(d) = designation_at(s, place) else {
            break;
        };
        place += d.octets;
        match d.side {
            Side::GL => sets.gl = d.set,
            Side::GR => sets.gr = d.set,
        }
    }
    Reach {
        place,
        units: 0,
        sets,
    }
}

// What is passed at a place at once: units and designations where text leaves the
// directions as they are, else designations, and then tabs and newlines.
fn passed(t: &Entries, s: &[u8], at: usize, st: State) -> Reach
    requires { at ≤ length s.now }
    ensures { LeadsBy t.now s.now at st result.place (state result.sets st.directions) result.units }
{
    if settled(st.directions) {
        return quick(t, s, at, st.sets);
    }
    let d = placed(s, at, st.sets);
    let place = blanks(t, s, d.place);
    Reach {
        place,
        units: place - d.place,
        sets: d.sets,
    }
}

// Whether a string is accepted, and what of it is refused. Units and designations are passed at once, and any other element by itself; a mark, which
// is none of these, is not looked at twice.
fn whole(t: &Entries, s: &[u8]) -> Answer
    ensures { t.now ≡ table → result ≡ check_of s.now }
{
    if limit::OCTETS < s.len() {
        return Refusal::TooLong.at(0);
    }
    let mut at: usize = 0;
    let mut count: usize = 0;
    let mut st = State::FRESH;
    while at < s.len() {
        if s[at] != 0x9B {
            st = begun(t, s, at, st);
            let p = passed(t, s, at, st);
            let began = at;
            at = p.place;
            count += p.units;
            st.sets = p.sets;
            if s.len() <= at {
                break;
            }
            if began < at && !settled(st.directions) {
                continue;
            }
        }
        match element::shape(s, at, st.sets) {
            Ok(Shape::Ends) => {
                return Answer::accepted(at, count);
            }
            Err(Refused(refusal, offset)) => {
                return refusal.at(at + offset);
            }
            Ok(Shape::Designates(octets, side, set)) => {
                at += octets;
                st = st.designated(side, set);
            }
            Ok(Shape::Gives(part)) => {
                match st.directions.step(part.text, part.kind) {
                    Err(refusal) => {
                        return refusal.at(at);
                    }
                    Ok(next) => {
                        at += part.skip + part.octets;
                        st = st.directed(next);
                        count += 1;
                    }
                }
            }
        }
    }
    Answer::accepted(at, count)
}

// The same where the table is lent.
pub fn check_by(t: &Entries, s: &[u8]) -> Answer
    requires { t.now ≡ table }
    ensures { result ≡ check_of s.now }
{
    whole(t, s)
}
