// Standard input, or another reader, as one text.
ghost use Rattle.std.specs.Prelude.{take};
ghost use Rattle.std.specs.Io.KnownBytes.{Consumes};
ghost use Rattle.cases.specs.Counts.{IsPrefixLen};

use std::io::Read;

// The next bytes of the input, as many as there are and as fit, and how many those are. A read that
// fails counts as the end of the input.
pub fn read_full<R: Read>(input: &mut R, buffer: &mut [u8]) -> usize
    ensures prefix_len { IsPrefixLen result buffer.new }
    ensures consumed { Consumes (R.remaining input.old) (R.remaining input.new) (take result buffer.new) }
{
    let mut count: usize = 0;
    // A count, not a `for`: each read says where the next one begins.
    while count < buffer.len() {
        match input.read(&mut buffer[count..]) {
            Ok(0) | Err(_) => return count,
            Ok(more) => count += more,
        }
    }
    count
}
