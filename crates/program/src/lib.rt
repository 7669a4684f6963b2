// What the program prints for an input, all of it but the reading and the writing of descriptors.
#![tactic(auto)]

ghost use Rattle.std.specs.Prelude.{◌+◌, ◌≤◌, ◌≡◌, length, take};
ghost use Rattle.base.specs.Limit.{octets};
ghost use Rattle.base.specs.Output.{stored_in};
ghost use Rattle.rewrite.specs.Shortest.{shortest_answer, shortest_output};
ghost use Rattle.program.specs.Printed.{room, printed_of};

use base::{Answer, refusal};

// The octets of work room, for 909 units.
const WORK_ROOM: usize = 72 * (909 + 1);

// The answer, and how many octets are printed: the struct that `ctext_program` gives C.
#[repr(C)]
#[derive(Clone, Copy)]
pub struct Printed {
    pub answer: Answer,
    pub length: usize,
}

// Room for an input: one octet more than the longest string, so that a longer one is seen to be.
pub fn input_room() -> [u8; 65536]
    ensures { length result ≡ octets + 1 }
{
    [0; 65536]
}

// Room for what is printed.
pub fn output_room() -> [u8; 65535]
    ensures { length result ≡ octets }
{
    [0; 65535]
}

// Writes the shortest string that reads as s does, in the work room of the program.
fn shorten(s: &[u8], out: &mut [u8]) -> Answer
    ensures { (result ≡ shortest_answer s.now room (length out.old))
        × (out.new ≡ shortest_output s.now room out.old) }
{
    let mut work = [0u8; WORK_ROOM];
    rewrite::shortest(s, &mut work, out)
}

// Stores what is printed for the input s from the output's first place on, and the rest of the output stays; where it has too few octets
// all of it stays. With 65,535 octets it never has.
pub fn print(s: &[u8], out: &mut [u8]) -> Printed
    ensures { (result.answer ≡ shortest_answer s.now room (length out.old))
        × (result.length ≡ length (printed_of s.now))
        × (out.new ≡ stored_in (printed_of s.now) out.old)
        × (octets ≤ length out.old → result.length ≤ length out.old) }
{
    let answer = shorten(s, out);
    // a count beside a refusal: the output is too short, and the shortest form needs so many octets
    let length = if answer.number == refusal::ACCEPTED || 0 < answer.count {
        answer.count
    } else {
        refusal_line::refused(answer.number, answer.place, out)
    };
    Printed { answer, length }
}

// What is printed for the first n octets of an input's room, or for all of it where n is not less.
// A room and a number in the place of a slice: PROMISES names the function, so that its arguments stay.
pub fn print_input(input: &[u8; 65536], n: usize, out: &mut [u8]) -> Printed
    ensures { (result.answer ≡ shortest_answer (take n input.now) room (length out.old))
        × (result.length ≡ length (printed_of (take n input.now)))
        × (out.new ≡ stored_in (printed_of (take n input.now)) out.old)
        × (octets ≤ length out.old → result.length ≤ length out.old) }
{
    print(&input[..n.min(input.len())], out)
}
