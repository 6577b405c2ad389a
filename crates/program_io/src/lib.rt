// What the programs read standard input with, over std's `Read`.
#![tactic(auto)]

ghost use Rattle.std.specs.Prelude.{◌≡◌, true, false, ◌<◌, ◌≤◌, ◌⊎◌, IfOk, length, replicate, take};
ghost use Rattle.std.specs.Io.{ReadsAtMost};
ghost use Rattle.std.specs.Io.KnownBytes.{Consumes, IsAtEnd};

use std::io;
use std::io::Read;

// Zeros, more than a record of a histogram has bytes.
pub fn buffer() -> [u8; 4096]
    ensures { result ≡ replicate 4096 0 }
{
    [0; 4096]
}

// Reads until the buffer is full or the input ends, and returns how many bytes it put at the buffer's start. A read that fails is the error.
pub fn read_full<R: Read>(input: &mut R, buf: &mut [u8]) -> io::Result<usize>
    ensures bound { ReadsAtMost result buf.new }
    ensures bytes { IfOk result (λ n. Consumes (R.remaining input.old) (R.remaining input.new) (take n buf.new)) }
    ensures end { IfOk result (λ n. n < length buf.new → IsAtEnd (R.remaining input.new)) }
{
    let mut done = 0;
    while done < buf.len() {
        let n = input.read(&mut buf[done..])?;
        if n == 0 {
            break;
        }
        done += n;
    }
    Ok(done)
}

// Reads `size` bytes to the buffer's start. Answers whether so many were there, and places for them.
pub fn read_whole<R: Read>(input: &mut R, buf: &mut [u8], size: u64) -> io::Result<bool>
    ensures places { IfOk result (λ whole. whole ≡ true → size ≤ length buf.new) }
    ensures bytes { IfOk result (λ whole. whole ≡ true → Consumes (R.remaining input.old) (R.remaining input.new) (take size buf.new)) }
    ensures short { IfOk result (λ whole. whole ≡ false → (length buf.new < size) ⊎ IsAtEnd (R.remaining input.new)) }
{
    let length = size as usize;
    if buf.len() < length {
        return Ok(false);
    }
    let read = read_full(input, &mut buf[..length])?;
    Ok(read == length)
}
