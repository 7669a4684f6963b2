// Prints the runs of the checked strings (rule P1), and of some more. For each string: its octets; a line for each run, with its
// start, octets, set, octet width and direction, and what it holds; and the refusal of the string or of the next run.
#![tactic(auto)]

use base::refusal;
use runs::Bounds;
use std::io;

// Octets in hexadecimal, each with a space after it, and a newline.
fn print_octets(rt: &impl Print, s: &[u8]) -> io::Result<()> {
    for octet in s {
        print!(rt; "{octet:02X} ")?;
    }
    println!(rt)
}

// The k-th run, whose bounds are known.
fn print_run(rt: &impl Print, s: &[u8], k: usize, b: Bounds) -> io::Result<()> {
    let a = b.answer;
    print!(rt;
        "{} {} {} {} {} ",
        b.start, a.count, b.set, b.width, b.direction
    )?;
    for i in 0..a.count {
        print!(rt; "{:02X} ", run_parts::run_octet(s, k, i))?;
    }
    println!(rt)
}

// The runs of a string, of which there are no more than octets.
fn print_runs(rt: &impl Print, s: &[u8]) -> io::Result<()> {
    for k in 0..s.len() {
        let b = run_parts::run_at(s, k);
        if b.answer.number == refusal::ACCEPTED {
            print_run(rt, s, k, b)?;
        }
    }
    Ok(())
}

fn show(rt: &impl Print, s: &[u8]) -> io::Result<()> {
    print_octets(rt, s)?;
    print_runs(rt, s)?;
    let a = run_parts::run_at(s, s.len()).answer;
    println!(rt; "refused {} at {}", a.number, a.place)
}

// What breaks a run, and what does not.
const BROKEN: [&[u8]; 6] = [
    b"\x41\x1B\x2D\x42\x41",
    b"\x1B\x28\x4A\x20\x20",
    b"\x48\x20\xE9\x09\xE9",
    b"\x41\x1B\x28\x42\x41",
    b"\x9B\x32\x5D\x41\x9B\x31\x5D\x42\xE9\x9B\x5D\x43",
    b"\x41\x1B\x25\x2F\x31\x80\x84\x61\x62\x02\xFF\x41\x20",
];

fn main(rt: HostRuntime) -> io::Result<()> {
    let all: [&[&[u8]]; 3] = [
        &checked_strings::STRINGS,
        &BROKEN,
        &checked_strings::SEGMENTS,
    ];
    for strings in all {
        for s in strings {
            show(&rt, s)?;
        }
    }
    Ok(())
}
