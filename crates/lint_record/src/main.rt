// Holds a record against the house rules: reads the domain name and the record from standard input, a line each, and prints for each breach the rule's
// number, the place and the rule in a few words, then the record and a caret under the place; `ok` where there is none; a refusal prints its number and
// place.
#![tactic(auto)]

use breach_listing::READ;
use input_reading::read_full;
use std::io;
use text::bytes::part;

fn main(rt: HostRuntime) -> io::Result<()> {
    let mut input = [0u8; READ];
    let mut out = breach_listing::buffer();
    let n = read_full(&mut rt.reader(), &mut input)?;
    let size = breach_listing::answer_input(part(&input, 0, n), &mut out);
    rt.write_all(part(&out, 0, size))
}
