// Reads strings in hexadecimal from standard input, one to a line, as 1B 28 42, and prints what the reader answers on each: number, place, count.
#![tactic(auto)]

ghost use Rattle.std.specs.Prelude.{◌<◌, ◌≤◌, length};

use base::Answer;
use std::io;
use std::io::{Read, Stdin};

// The value of a hexadecimal digit, 0 where it is none.
fn digit(b: u8) -> u8
    ensures { result < 16 }
{
    match b {
        b'0'..=b'9' => b - b'0',
        b'A'..=b'F' => b - b'A' + 10,
        _ => 0,
    }
}

// Stores the octets that a line stands for, two digits for each and one character after them, as far as there is room; answers how many.
// No `Vec`: the programs ask for no memory, so that no input can make them run out of it.
fn octets_of(line: &[u8], octets: &mut [u8]) -> usize
    ensures { result ≤ length octets.new }
{
    let n = octets.len().min(line.len() / 3);
    for (octet, digits) in octets.iter_mut().zip(line.chunks_exact(3)) {
        *octet = digit(digits[0]) * 16 + digit(digits[1]);
    }
    n
}

fn print_answer(rt: &impl Print, a: Answer) -> io::Result<()> {
    println!(rt; "  {} {} {}", a.number, a.place, a.count)
}

fn show(rt: &impl Print, line: &[u8]) -> io::Result<()> {
    let mut space = [0u8; 4096];
    let n = octets_of(line, &mut space);
    rt.write_all(line)?;
    print_answer(rt, check_string::answer(&space[..n]))
}

// The longest string, and one octet more.
fn show_longest(rt: &impl Print) -> io::Result<()> {
    let space = [0x20u8; 65536];
    println!(rt; "65535 spaces")?;
    print_answer(rt, check_string::answer(&space[..65535]))?;
    println!(rt; "65536 spaces")?;
    print_answer(rt, check_string::answer(&space))
}

// Reads until the room is full, the input ends or a read fails, and answers how many octets. Not the `read_input` of shortest_form, where a
// failed read is an error.
fn read_full(stdin: &mut Stdin, room: &mut [u8]) -> usize
    ensures { result ≤ length room.new }
{
    let mut n = 0;
    while n < room.len() {
        match stdin.read(&mut room[n..]) {
            Ok(octets) if 0 < octets => n += octets,
            _ => break,
        }
    }
    n
}

fn main(rt: HostRuntime) -> io::Result<()> {
    let mut stdin = rt.stdin();
    let mut space = [0u8; 65536];
    let n = read_full(&mut stdin, &mut space);
    for line in space[..n].split_inclusive(|octet| *octet == b'\n') {
        show(&rt, line)?;
    }
    show_longest(&rt)
}
