// Standard input into a buffer, and bytes to standard output, whole.
#![tactic(auto)]

ghost use Rattle.std.specs.Prelude.{◌≡◌, ◌<◌, length, take, IfOk, OnOk};
ghost use Rattle.std.specs.Io.{ReadsAtMost};
ghost use Rattle.std.specs.Io.KnownBytes.{Appends, Consumes, IsAtEnd};

use std::io;
use std::io::{Input, Read, Write};

// Reads until the buffer is full or the reader's bytes are at an end, and answers how many bytes it put at
// the start of the buffer: those that came next.
pub fn fill<R: Read>(reader: &mut R, buffer: &mut [u8]) -> io::Result<usize>
    ensures length { length buffer.new ≡ length buffer.old }
    ensures bound { ReadsAtMost result buffer.new }
    ensures bytes { IfOk result (λ n. Consumes (R.remaining reader.old) (R.remaining reader.new) (take n buffer.new)) }
    ensures end { IfOk result (λ n. n < length buffer.new → IsAtEnd (R.remaining reader.new)) }
{
    // A while over `read`, whose answer is the step: `read_to_end` fills a Vec, and the memory here is fixed.
    let mut done = 0;
    while done < buffer.len() {
        let n = reader.read(&mut buffer[done..])?;
        if n == 0 {
            break;
        }
        done += n;
    }
    Ok(done)
}

// The same of standard input.
pub fn read_full(rt: &impl Input, buffer: &mut [u8]) -> io::Result<usize>
    ensures length { length buffer.new ≡ length buffer.old }
    ensures bound { ReadsAtMost result buffer.new }
{
    let mut reader = rt.reader();
    fill(&mut reader, buffer)
}

// Writes all of the bytes.
pub fn put<W: Write>(writer: &mut W, bytes: &[u8]) -> io::Result<()>
    ensures { OnOk result (Appends (W.contents writer.old) (W.contents writer.new) bytes.now) }
{
    writer.write_all(bytes)
}

// The same to standard output.
pub fn write_all(rt: &impl Print, bytes: &[u8]) -> io::Result<()> {
    put(&mut io::writer(rt), bytes)
}
