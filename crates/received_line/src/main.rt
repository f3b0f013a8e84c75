// Writes a Received-SPF line: reads a result's word, the client, the sender, the HELO name, the receiver and the identity from standard input, a line
// each, and prints the line, `refused` and a number, or `input`. An input that begins with `Received-SPF:` is read back: the same six lines are printed, or
// `refused 51`.
#![tactic(auto)]

use input_reading::read_full;
use line_input::READ;
use received::MOST_LINE;
use std::io;
use text::bytes::part;

fn main(rt: HostRuntime) -> io::Result<()> {
    let mut input = [0u8; READ];
    let mut out = [0u8; MOST_LINE];
    let n = read_full(&mut rt.reader(), &mut input)?;
    let size = line_input::answer_input(part(&input, 0, n), &mut out);
    rt.write_all(part(&out, 0, size))
}
