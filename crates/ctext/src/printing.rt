// What the program prints for an input, for C.
ghost use Rattle.std.specs.Prelude.{◌≤◌, ◌≡◌, length};
ghost use Rattle.base.specs.Limit.{octets};
ghost use Rattle.rewrite.specs.Shortest.{shortest_answer};
ghost use Rattle.base.specs.Output.{stored_in};
ghost use Rattle.program.specs.Printed.{room, printed_of};

use program::Printed;

// What is printed is stored from the output's first place on, and the rest of the output stays; where it has too few octets all of it stays.
#[unsafe(no_mangle)]
pub extern "C" fn ctext_program(s: &[u8], out: &mut [u8]) -> Printed
    ensures { (result.answer ≡ shortest_answer s.now room (length out.old))
        × (result.length ≡ length (printed_of s.now))
        × (out.new ≡ stored_in (printed_of s.now) out.old)
        × (octets ≤ length out.old → result.length ≤ length out.old) }
{
    program::print(s, out)
}
