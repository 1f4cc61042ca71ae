// Prints what the tag on standard input holds: `elements` and their count, and a line for each; or `refused`, the number and, for
// damage, the place.
// A tag has at most 2,048 bytes; one byte more is read, so that longer input is refused as such.
#![tactic(auto)]

ghost use Rattle.std.specs.Prelude.{◌<◌, ◌≤◌, length, take, IfOk};
ghost use Rattle.std.specs.Io.KnownBytes.{Consumes, IsAtEnd};

use std::io;
use std::io::{Read, Write};

// Reads until the buffer is full or the input has ended; answers how many bytes it read. A turn takes what one read gives, and a read to the
// end takes a Vec: so no method of the library.
fn read_full<R: Read>(input: &mut R, buffer: &mut [u8]) -> io::Result<usize>
    ensures within { IfOk result (λ n. n ≤ length buffer.new) }
    ensures read { IfOk result (λ n. Consumes (R.remaining input.old) (R.remaining input.new) (take n buffer.new)) }
    ensures full { IfOk result (λ n. n < length buffer.new → IsAtEnd (R.remaining input.new)) }
{
    let mut filled: usize = 0;
    while filled < buffer.len() {
        let count = input.read(&mut buffer[filled..])?;
        if count == 0 {
            return Ok(filled);
        }
        filled += count;
    }
    Ok(filled)
}

// Lends `list` just the bytes read, and writes just the bytes that it answers, which are in its buffer.
fn main(rt: HostRuntime) -> io::Result<()> {
    let mut tag = [0u8; 2049];
    let n = read_full(&mut rt.reader(), &mut tag)?;
    let mut out = [0u8; 20480];
    let length = listing::list(&tag[0..n], &mut out);
    io::writer(&rt).write_all(&out[0..length])
}
