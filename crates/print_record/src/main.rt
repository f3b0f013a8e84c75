// Reads a record from standard input, drops one final newline, and prints a header and a line for each term: place, name, sign, argument, IPv4
// length, IPv6 length. A refusal prints its number and place.
#![tactic(auto)]

use input_reading::read_full;
use std::io;
use text::bytes::part;

fn main(rt: HostRuntime) -> io::Result<()> {
    let mut input = [0u8; 4098];
    let mut out = record_listing::buffer();
    let n = read_full(&mut rt.reader(), &mut input)?;
    let size = record_listing::list_input(&input, n, &mut out);
    rt.write_all(part(&out, 0, size))
}
