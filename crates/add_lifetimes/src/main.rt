// Rewrites an old answer table: reads it from standard input, each byte of it, and prints the new table, in which each entry has a lifetime of 0. A
// refusal prints its number and place.
#![tactic(auto)]

use input_reading::read_full;
use rewrite_input::{READ, ROOM};
use std::io;
use text::bytes::part;

fn main(rt: HostRuntime) -> io::Result<()> {
    let mut input = [0u8; READ];
    let mut out = [0u8; ROOM];
    let n = read_full(&mut rt.reader(), &mut input)?;
    let size = rewrite_input::answer_input(part(&input, 0, n), &mut out);
    rt.write_all(part(&out, 0, size))
}
