// Checks a client: reads client, domain, sender, HELO, receiver and t from standard input, a line each, then the answer table, and prints number, kind
// or place, both counts and the lifetime on a line, and for 3 and 7 the text or name on a second. A client or t that cannot be read prints `input`.
#![tactic(auto)]

ghost use Rattle.std.specs.Prelude.{◌≡◌, ◌≤◌, IfOk, OnErr, length};
ghost use Rattle.check_host.specs.Reading.{HoldsChunks};
ghost use Rattle.check_input.specs.Keeping.{held_room};

use check_input::keeping::hold;
use input_reading::read_full;
use std::io;
use std::io::Read;
use text::bytes::part;

// Reads all of standard input, chunk by chunk, and holds what the answer depends on; answers how much that is. No input has as many chunks as the loop
// has turns. A failed read is the error, and leaves the buffer its length.
fn read_input(input: &mut impl Read, held: &mut [u8]) -> io::Result<usize>
    requires { held_room ≤ length held.old }
    ensures read { IfOk result (λ n. HoldsChunks held.new n) }
    ensures err { OnErr result (length held.new ≡ length held.old) }
{
    let mut chunk = [0u8; 65536];
    let mut n = 0;
    for _ in 0..usize::MAX {
        let got = read_full(input, &mut chunk)?;
        if got == 0 {
            return Ok(n);
        }
        n = hold(held, n, &chunk, got);
    }
    Ok(n)
}

fn main(rt: HostRuntime) -> io::Result<()> {
    let mut held = [0u8; 132234];
    let mut out = [0u8; 640];
    let n = read_input(&mut rt.reader(), &mut held)?;
    let size = check_input::answer_input(part(&held, 0, n), &mut out);
    rt.write_all(part(&out, 0, size))
}
