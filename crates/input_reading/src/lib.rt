// Reading an input into a lent buffer, as much as fits.
#![tactic(auto)]

ghost use Rattle.std.specs.Prelude.{◌≡◌, ◌<◌, ◌≤◌, IfOk, OnErr, length, take};
ghost use Rattle.std.specs.Io.KnownBytes.{Consumes, IsAtEnd};

use std::io;
use std::io::Read;

// Reads until a buffer is full or the input ends; answers how many bytes now stand at the buffer's front. A failed read is
// the error, and leaves the buffer its length.
pub fn read_full<R: Read>(input: &mut R, out: &mut [u8]) -> io::Result<usize>
    ensures bound { IfOk result (λ n. n ≤ length out.new) }
    ensures front { IfOk result (λ n. Consumes (R.remaining input.old) (R.remaining input.new) (take n out.new)) }
    ensures end { IfOk result (λ n. n < length out.new → IsAtEnd (R.remaining input.new)) }
    ensures err { OnErr result (length out.new ≡ length out.old) }
{
    // By what was read and not `for`: a step takes as many bytes as came.
    let mut n = 0;
    while n < out.len() {
        let got = input.read(&mut out[n..])?;
        if got == 0 {
            return Ok(n);
        }
        n += got;
    }
    Ok(n)
}
