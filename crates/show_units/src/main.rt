// Shows the units of the checked strings (rule P1): what `read` answers for a list of eight records, the records of that list, and what a reader
// hands out, step by step.
#![tactic(auto)]

use base::{Answer, Unit};
use reader::Item;
use state::directions::Directions;
use state::{Sets, State};
use std::io;

// a record that no string has
const MARK: Unit = Unit {
    kind: 255,
    set: 255,
    code: 65535,
    start: 65535,
    length: 65535,
    direction: 65535,
    depth: 65535,
};

fn show_answer(rt: &impl Print, a: Answer) -> io::Result<()> {
    println!(rt; "  answer {} {} {}", a.number, a.place, a.count)
}

fn show_unit(rt: &impl Print, u: Unit) -> io::Result<()> {
    println!(rt;
        "  unit {} {} {} {} {} {} {}",
        u.kind, u.set, u.code, u.start, u.length, u.direction, u.depth
    )
}

fn show_item(rt: &impl Print, item: Item) -> io::Result<()> {
    match item {
        Ok(unit) => show_unit(rt, unit),
        Err(answer) => show_answer(rt, answer),
    }
}

// The list of eight records after `read`; of those that it leaves, one is shown.
fn show_list(rt: &impl Print, s: &[u8]) -> io::Result<()> {
    println!(rt; " list")?;
    show_answer(rt, read::answer(s, 8))?;
    for unit in by_value::read_eight(s, MARK) {
        show_unit(rt, unit)?;
        if unit.kind == MARK.kind {
            break;
        }
    }
    Ok(())
}

// What a reader hands out, and its answer once again.
fn show_items(rt: &impl Print, s: &[u8]) -> io::Result<()> {
    println!(rt; " reader")?;
    for k in 0..10 {
        let item = by_value::nth(s, k);
        show_item(rt, item)?;
        if matches!(item, Err(_)) {
            break;
        }
    }
    Ok(())
}

// The state of a reader that is made by hand.
fn made(gl: u8, gr: u8, depth: u8, levels: u64) -> State {
    State {
        directions: Directions {
            levels,
            depth,
            marked: true,
            texted: true,
        },
        sets: Sets { gl, gr },
    }
}

// One step of a reader that is made by hand, with 7 units before it.
fn show_step(rt: &impl Print, s: &[u8], place: usize, state: State) -> io::Result<()> {
    show_counted_step(rt, s, place, 7, state)
}

fn show_counted_step(
    rt: &impl Print,
    s: &[u8],
    place: usize,
    count: usize,
    state: State,
) -> io::Result<()> {
    let step = reader::step(s, place, count, state);
    println!(rt; " made by hand")?;
    show_item(rt, step.item)?;
    println!(rt; "  then {} {}", step.place, step.count)
}

fn show(rt: &impl Print, s: &[u8]) -> io::Result<()> {
    println!(rt; "string")?;
    show_list(rt, s)?;
    show_items(rt, s)
}

// Nine characters, more than the list has records; and a string that ends within a designation.
const CUT: [&[u8]; 2] = [
    b"\x41\x41\x41\x41\x41\x41\x41\x41\x41",
    b"\x41\x41\x1B\x2D\x42\x1B\x28\x42",
];

// Directions: nested and mixed, and a tab after the last revert; text of one and two octets and designations inside; one after another; eight deep.
const DIRECTIONS: [&[u8]; 5] = [
    b"\x9B\x31\x5D\x41\x9B\x32\x5D\x20\x9B\x5D\x41\x9B\x5D\x09",
    b"\x9B\x32\x5D\x1B\x24\x28\x42\x30\x21\x1B\x2D\x42\xB1\x1B\x28\x42\x41\x42\x0A",
    b"\x0A\x9B\x32\x5D\x41\x9B\x5D\x1B\x28\x4A\x0A\x9B\x31\x5D\x5C",
    b"\x9B\x32\x5D\x9B\x31\x5D\x9B\x5D\x9B\x32\x5D\x9B\x5D\x9B\x5D\x41",
    b"\x9B\x32\x5D\x9B\x31\x5D\x9B\x31\x5D\x9B\x32\x5D\x9B\x32\x5D\x9B\x31\x5D\x9B\x32\x5D\x9B\x31\x5D",
];

fn show_steps(rt: &impl Print) -> io::Result<()> {
    // in the middle of a character, at the end, past it; a set that may not stand in GL, in GR, and no set; 16 and 17 directions open; the
    // largest count; more than 65,535 octets, at the end and past it
    let s = b"\x1B\x24\x28\x42\x30\x21";
    show_step(rt, s, 5, made(13, 3, 1, 0))?;
    show_step(rt, s, 4, made(13, 3, 1, 0))?;
    show_step(rt, s, 5, made(0, 3, 1, 0))?;
    show_step(rt, s, 6, made(0, 3, 1, 0))?;
    show_step(rt, s, 7, made(0, 3, 1, 0))?;
    show_step(rt, s, 0, made(3, 3, 1, 0))?;
    show_step(rt, s, 0, made(0, 0, 1, 0))?;
    show_step(rt, s, 0, made(15, 3, 1, 0))?;
    show_step(rt, s, 0, made(0, 3, 16, 0))?;
    show_step(rt, s, 0, made(0, 3, 17, 0))?;
    show_counted_step(rt, s, 0, usize::MAX, made(0, 3, 1, 0))?;
    let long = [0x20u8; 65536];
    show_step(rt, &long, 65536, made(0, 3, 1, 0))?;
    show_step(rt, &long, 65537, made(3, 3, 17, 0))?;
    // after a mark: an extended segment with text, no direction open and one open; one without text, none open
    let segment = b"\x1B\x25\x2F\x31\x80\x84\x61\x62\x02\xFF";
    show_step(rt, segment, 0, made(0, 3, 0, 0))?;
    show_step(rt, segment, 0, made(0, 3, 1, 0))?;
    show_step(rt, b"\x1B\x25\x2F\x34\x80\x82\x6E\x02", 0, made(0, 3, 0, 0))
}

// Readers made by hand under directions, by their levels: the last opened is the lowest binary digit, 1 for right-to-left.
fn show_directed_steps(rt: &impl Print) -> io::Result<()> {
    // text under each direction, one octet and two, behind a designation; levels past the depth mean nothing
    show_step(rt, b"\x41", 0, made(0, 3, 1, 0))?;
    show_step(rt, b"\xE9", 0, made(0, 3, 1, 1))?;
    show_step(rt, b"\x30\x21", 0, made(13, 3, 2, 2))?;
    show_step(rt, b"\x1B\x24\x29\x42\xB0\xA1", 0, made(0, 3, 16, 0x7FFF))?;
    show_step(rt, b"\x41", 0, made(0, 3, 1, u64::MAX - 1))?;
    show_step(rt, b"\x0A", 0, made(0, 3, 0, u64::MAX))?;
    // one more direction; a revert to each direction, and to none
    show_step(rt, b"\x9B\x31\x5D", 0, made(0, 3, 1, 1))?;
    show_step(rt, b"\x9B\x32\x5D", 0, made(0, 3, 15, 0))?;
    show_step(rt, b"\x9B\x5D", 0, made(0, 3, 2, 1))?;
    show_step(rt, b"\x9B\x5D", 0, made(0, 3, 2, 2))?;
    show_step(rt, b"\x9B\x5D", 0, made(0, 3, 16, 0xAAAA))?;
    show_step(rt, b"\x9B\x5D", 0, made(0, 3, 1, u64::MAX))?;
    // an extended segment with text
    let segment = b"\x1B\x25\x2F\x31\x80\x84\x61\x62\x02\xFF";
    show_step(rt, segment, 0, made(0, 3, 1, 1))
}

fn main(rt: HostRuntime) -> io::Result<()> {
    let all: [&[&[u8]]; 4] = [
        &checked_strings::STRINGS,
        &CUT,
        &checked_strings::SEGMENTS,
        &DIRECTIONS,
    ];
    for strings in all {
        for s in strings {
            show(&rt, s)?;
        }
    }
    show_steps(&rt)?;
    show_directed_steps(&rt)
}
