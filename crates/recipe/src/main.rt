// Reads a file of tables and tokens from standard input and prints what document 01 says of it: a refusal's line, or an answer with its
// units, its tree and its marks. What is printed is the library's (`answering::fill`); here is only what reads, calls and writes.
#![tactic(auto)]

ghost use Rattle.std.specs.Prelude.{◌≡◌, ◌≤◌, length, IfOk};

use answering::Rooms;
use std::io;
use std::io::{Read, Write};

// "A program reads standard input, at most 65,536 bytes": one byte more is read, so that a longer file is seen to be one.
fn main(rt: HostRuntime) -> io::Result<()> {
    let mut file = [0u8; 65537];
    match read_full(&mut rt.stdin(), &mut file) {
        Ok(n) => answer(&rt, &file[..n]),
        Err(_) => rt
            .stderr()
            .write_all(b"recipe: standard input could not be read\n"),
    }
}

// Reads until the buffer is full or the input ends, and says how many bytes are at the buffer's start. A read that fails is told.
// A loop: `read_exact` fails where the input ends before the buffer, and `read_to_end` needs the heap.
fn read_full<R: Read>(input: &mut R, buf: &mut [u8]) -> io::Result<usize>
    ensures { IfOk result (λ n. n ≤ length buf.new) }
{
    let mut done = 0;
    while done < buf.len() {
        let n = input.read(&mut buf[done..])?;
        if n == 0 {
            break;
        }
        done += n;
    }
    Ok(done)
}

fn answer(rt: &HostRuntime, file: &[u8]) -> io::Result<()> {
    let mut rooms = Rooms {
        tokens: &mut zeros(),
        stack: &mut zeros(),
        scratch: &mut zeros(),
        nodes: &mut zeros(),
        children: &mut zeros(),
        records: &mut zeros(),
        report: &mut zeros(),
    };
    let mut out = zeros::<524288>();
    let end = answering::fill(file, &mut rooms, &mut out);
    print(rt, &out, end)
}

// Its contract tells the length alone: a proof that has so many zeros before it would unfold them one by one.
fn zeros<const N: usize>() -> [u8; N]
    ensures { N ≡ length result }
{
    [0; N]
}

// A place before the buffer's end says that all of the text is there.
fn print(rt: &HostRuntime, out: &[u8], end: usize) -> io::Result<()> {
    if end >= out.len() {
        return rt
            .stderr()
            .write_all(b"recipe: the answer is too long to print\n");
    }
    rt.stdout().write_all(&out[..end]).or_else(|_| {
        rt.stderr()
            .write_all(b"recipe: standard output could not be written\n")
    })
}
