#![tactic(auto)]

ghost use Rattle.std.specs.Prelude.{◌≡◌, ◌+◌, ◌≤◌, List, ℕ, IfOk, IfSome, OnOk, take, vec_len};
ghost use Rattle.std.specs.Io.KnownBytes.{Appends};
ghost use Rattle.desk.specs.Output.{Output, most_input, program_orders, program_room};

use desk::output::{MOST_INPUT, output};
use std::alloc::{AllocError, Global};
use std::io;
use std::io::{ErrorKind, Read, Write};

// The most bytes that are read: one more than an input may have shows that it is too long.
const MOST_READ: usize = MOST_INPUT + 1;

// Reads a reader to its end, or until it has given one byte more than an input may have. A read has room for 8,192 bytes: a pipe
// that keeps its messages apart, of 4,096 bytes at the most, drops what there is no room for.
fn read_all<R: Read + Drop>(heap: Global, reader: R) -> io::Result<Vec<u8>>
    ensures most { IfOk result (λ input. vec_len input ≤ most_input + 1) }
    ensures bytes { IfOk result (λ input. IfSome (R.Read.remaining reader) (λ xs. input.items ≡ take (most_input + 1) xs)) }
{
    let mut input = Vec::new(heap);
    io::copy(&mut reader.take(MOST_READ as u64), &mut input)?;
    // No effect at run time. `copy` does not say that it keeps to the limit of `take`.
    input.truncate(MOST_READ);
    Ok(input)
}

// What reading failed by: where there was no memory, the error of any other call that asks for some.
fn read_error(error: io::Error) -> anyhow::Error {
    if error.kind() == ErrorKind::OutOfMemory && error.raw_os_error().is_none() {
        return AllocError.into();
    }
    error.into()
}

// What `read_all` reads, or the program's error.
fn read_input<R: Read + Drop>(heap: Global, reader: R) -> anyhow::Result<Vec<u8>>
    ensures most { IfOk result (λ input. vec_len input ≤ most_input + 1) }
    ensures bytes { IfOk result (λ input. IfSome (R.Read.remaining reader) (λ xs. input.items ≡ take (most_input + 1) xs)) }
{
    read_all(heap, reader).map_err(read_error)
}

// Writes a whole text behind what a writer has.
fn write_text<W: Write>(writer: &mut W, text: &[u8]) -> anyhow::Result<()>
    ensures { OnOk result (Appends (W.Write.contents writer.old) (W.Write.contents writer.new) text.now) }
{
    writer.write_all(text)?;
    Ok(())
}

// Writes the answer to all that a reader gives behind what a writer has.
fn answer<R: Read + Drop, W: Write>(heap: Global, reader: R, writer: &mut W) -> anyhow::Result<()>
    ensures { OnOk result (IfSome (R.Read.remaining reader) (λ input. (text : List ℕ) × Output input program_room program_orders text × Appends (W.Write.contents writer.old) (W.Write.contents writer.new) text)) }
{
    let input = read_input(heap, reader)?;
    let text = output(heap, &input)?;
    write_text(writer, &text)
}

// Answers standard input on standard output.
fn run(rt: &HostRuntime) -> anyhow::Result<()> {
    answer(rt.alloc(), rt.stdin(), &mut rt.stdout())
}

fn main(rt: HostRuntime) -> anyhow::Result<()> {
    run(&rt)
}
