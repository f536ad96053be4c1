// The program: reads an image on standard input and prints its listing. One byte more than the largest image is read, so that a longer
// one is refused 11.
#![tactic(auto)]

ghost use Rattle.std.specs.Prelude.{◌≤◌, length, IfOk};

use listing::write_listing;
use std::io;
use std::io::{Read, Stdin, Write};

// Reads until the buffer is full or the input ends, and says how many bytes stand at its start.
fn read_full(input: &mut Stdin, buffer: &mut [u8]) -> io::Result<usize>
    ensures { IfOk result (λ size. size ≤ length buffer.new) }
{
    let mut size = 0;
    while size < buffer.len() {
        let count = input.read(&mut buffer[size..])?;
        if count == 0 {
            break;
        }
        size += count;
    }
    Ok(size)
}

fn main(rt: HostRuntime) -> io::Result<()> {
    let mut image = [0u8; 65537];
    let size = read_full(&mut rt.stdin(), &mut image)?;
    let mut text = [0u8; 131072];
    let length = write_listing(&image[..size], &mut text);
    rt.stdout().write_all(&text[..length])
}
