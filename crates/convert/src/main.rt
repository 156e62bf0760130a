// The text program: standard input is read, at most 65,536 bytes of it and one more, which shows that there were more; what is printed goes to standard output.
#![tactic(auto)]

ghost use Rattle.std.specs.Prelude.{ℕ, List, length, OnOk, IfSome};
ghost use Rattle.std.specs.Io.KnownBytes.{Appends};
ghost use Rattle.text.specs.Convert.{InputFits, ConvertsInput};
ghost use Rattle.convert.specs.Streams.{ReadIn, WrittenFor};

use std::io;
use std::io::{Read, Write};

// Reads on until a read finds the input's end, or the buffer is full, and returns how many bytes were read. None is returned after a read that fails, as of a pipe that
// has nothing for the moment and does not wait: the bytes before it may be a file, but not the one that was sent. The loop goes by
// the bytes that each read gives; std's `read_to_end` needs a heap, and its `read_exact` does not say how many were read.
fn read_input<R: Read>(reader: &mut R, buffer: &mut [u8]) -> Option<usize>
    ensures fits { InputFits (length buffer.new) result }
    ensures bytes { ReadIn (R.remaining reader.old) (R.remaining reader.new) result buffer.new }
{
    let mut done = 0;
    while done < buffer.len() {
        let more = reader.read(&mut buffer[done..]).ok()?;
        if more == 0 {
            return Some(done);
        }
        done += more;
    }
    Some(done)
}

// Writes what is printed for what was read. A function of its own: in one with the reading the compiler fills the three buffers twice.
fn write_converted<W: Write>(
    buffer: &[u8; 65537],
    input: Option<usize>,
    writer: &mut W,
) -> io::Result<()>
    requires { InputFits (length buffer.now) input }
    ensures { OnOk result ((output : List ℕ) × ConvertsInput buffer.now input output × Appends (W.contents writer.old) (W.contents writer.new) output) }
{
    // buffers of fixed size, the largest that an input can need: there is no heap
    let mut numbers = [0u8; 65536];
    let mut answer = [0u8; 11008];
    let mut out = [0u8; 27534];
    let count = text::convert_input(buffer, input, &mut numbers, &mut answer, &mut out);
    writer.write_all(&out[..count])
}

// Reads all that the reader has, and writes what is printed for it.
fn convert_stream<R: Read, W: Write>(reader: &mut R, writer: &mut W) -> io::Result<()>
    ensures { OnOk result (IfSome (R.remaining reader.old) (λ xs.
        (output : List ℕ) × WrittenFor xs output × Appends (W.contents writer.old) (W.contents writer.new) output)) }
{
    let mut buffer = [0u8; 65537];
    let input = read_input(reader, &mut buffer);
    write_converted(&buffer, input, writer)
}

fn main(rt: HostRuntime) {
    if convert_stream(&mut rt.stdin(), &mut rt.stdout()).is_err() {
        let _ = eprintln!(rt; "clifford-convert: standard output could not be written whole");
    }
}
