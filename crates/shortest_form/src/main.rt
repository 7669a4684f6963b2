// The program: reads a string from standard input and writes its shortest form, nothing added; or `refused N at P` and a newline. What it
// writes for an input is `program::print`'s. Where a read fails it writes nothing there, and where a read or a write fails a line to
// standard error.
#![tactic(auto)]

ghost use Rattle.std.specs.Prelude.{◌≤◌, length, IfOk};

use std::io;
use std::io::{Read, Stdin};

// Reads until the room is full or the input ends, and answers how many octets.
fn read_input(stdin: &mut Stdin, room: &mut [u8]) -> io::Result<usize>
    ensures { IfOk result (λ n. n ≤ length room.new) }
{
    let mut n = 0;
    while n < room.len() {
        let octets = stdin.read(&mut room[n..])?;
        if octets == 0 {
            break;
        }
        n += octets;
    }
    Ok(n)
}

fn main(rt: HostRuntime) {
    let mut stdin = rt.stdin();
    let mut room = program::input_room();
    let Ok(n) = read_input(&mut stdin, &mut room) else {
        let _ = rt.eprintln("ctext: the input cannot be read");
        return;
    };
    let mut out = program::output_room();
    let printed = program::print_input(&room, n, &mut out);
    if rt.write_all(&out[..printed.length]).is_err() {
        let _ = rt.eprintln("ctext: the output cannot be written");
    }
}
