// Reads a book from standard input and prints the verdict on each of its blocks, up to what is refused.
#![tactic(auto)]

mod blocks;
mod stop;
mod words;

ghost use Rattle.std.specs.Prelude.{◌<◌, ◌≤◌, length, take, IfOk};
ghost use Rattle.std.specs.Io.KnownBytes.{Consumes, IsAtEnd};

use std::io;
use std::io::Read;
use stop::Stop;
use words::print_book;

// One byte more than a book may have, so that a longer book is seen to be one.
const ROOM: usize = 65537;

// Reads until `buf` is full or the input ends. Told is how many bytes stand at its start.
fn read_full<R: Read>(input: &mut R, buf: &mut [u8]) -> io::Result<usize>
    ensures bound { IfOk result (λ n. n ≤ length buf.new) }
    ensures bytes { IfOk result
        (λ n. Consumes (R.remaining input.old) (R.remaining input.new) (take n buf.new)) }
    ensures end { IfOk result (λ n. n < length buf.new → IsAtEnd (R.remaining input.new)) }
{
    let mut done = 0;
    while done < buf.len() {
        let n = input.read(&mut buf[done..])?;
        if n == 0 {
            break;
        }
        done += n;
    }
    Ok(done)
}

fn main(rt: HostRuntime) -> io::Result<()> {
    let mut bytes = [0u8; ROOM];
    let n = read_full(&mut rt.stdin(), &mut bytes)?;
    match print_book(&rt, &bytes[..n]) {
        Ok(()) => Ok(()),
        Err(Stop::NotPrinted(error)) => Err(error),
        Err(refused) => println!(rt; "{refused}"),
    }
}
