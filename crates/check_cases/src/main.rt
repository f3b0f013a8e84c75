// Runs whole inputs of the check program, a line each in hex, through the functions that the program calls, and prints what it prints of each: number, kind
// or place, both counts and the lifetime on a line, and for 3 and 7 the text or name on a second, or `input`.
#![tactic(auto)]

ghost use Rattle.std.specs.Prelude.{◌≤◌, length};
ghost use Rattle.check_input.specs.Keeping.{most_kept, held_room};

use check_input::keeping::hold;
use std::io;
use std::io::Read;
use text::bytes::part;

// Adds the bytes that a piece of a line writes to what is held of an input.
fn hold_piece(piece: &[u8], held: &mut [u8], n: usize) -> usize
    requires n_le_most_kept { n ≤ most_kept }
    requires held_room_in_bounds { held_room ≤ length held.old }
    ensures { result ≤ most_kept }
{
    let mut bytes = [0u8; 2048];
    let size = case_support::unhex(piece, &mut bytes);
    hold(held, n, &bytes, size)
}

// Prints the answer to what is held.
fn run_input(rt: &impl Print, input: &[u8]) -> io::Result<()> {
    let mut out = [0u8; 640];
    let size = check_input::answer_input(input, &mut out);
    rt.write_all(part(&out, 0, size))
}

// Reads a line, piece by piece, and runs the input that it writes; answers whether there was one. A piece that fills its buffer isn't the line's last.
fn run_line(rt: &impl Print, input: &mut impl Read, held: &mut [u8]) -> io::Result<bool>
    requires { held_room ≤ length held.old }
{
    let mut piece = [0u8; 4096];
    let mut at: usize = 0;
    for _ in 0..1000 {
        let Some(n) = case_support::read_line(input, &mut piece)? else {
            return Ok(false);
        };
        at = hold_piece(part(&piece, 0, n), held, at);
        if n < 4096 {
            run_input(rt, part(held, 0, at))?;
            return Ok(true);
        }
    }
    Ok(true)
}

// At most as many lines as the budget says.
fn main(rt: HostRuntime) -> io::Result<()> {
    let mut input = rt.reader();
    let mut held = [0u8; 132234];
    for _ in 0..1000000 {
        if !run_line(&rt, &mut input, &mut held)? {
            break;
        }
    }
    Ok(())
}
