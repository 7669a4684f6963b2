// Octets stored from a place on where they have room, and else none.
ghost use Rattle.unit_octets.specs.Octets.{Stored};

// Stores N octets where all have room, and answers the next place.
pub fn put<const N: usize>(octets: [u8; N], out: &mut [u8], at: usize) -> usize
    ensures { Stored out.old at octets.entry result out.new }
{
    if out.len() < N || out.len() - N < at {
        return at;
    }
    out[at..at + N].copy_from_slice(&octets);
    at + N
}
