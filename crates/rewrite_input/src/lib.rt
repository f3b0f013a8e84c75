// What the program add_lifetimes prints of an input, written into a lent buffer: the new table of an old one, or a refusal.
#![tactic(auto)]

ghost use Rattle.std.specs.Prelude.{◌≤◌, length};
ghost use Rattle.answer_table.specs.Answers.{most_bytes};
ghost use Rattle.text.specs.Writing.{Writes};
ghost use Rattle.rewrite_input.specs.Printing.{error_line, Printed};

use answer_table::{MOST_BYTES, TableError};
use record_listing::put_refusal;
use text::writing::Writer;

// How much of an input decides what is printed: a table of 65,535 bytes, and one byte more.
pub const READ: usize = MOST_BYTES + 1;

// What is printed never has more bytes.
pub const ROOM: usize = MOST_BYTES;

// Writes the line of a refusal.
fn put_error(e: TableError, out: &mut Writer)
    ensures { Writes (error_line e) out.old out.new }
{
    match e {
        TableError::TooLong => put_refusal(24, 0, out),
        TableError::Malformed(place) => put_refusal(25, place, out),
        TableError::Repeated(place) => put_refusal(26, place, out),
    }
}

// Writes what the program prints of an input, which is an old table, each of its bytes.
pub fn answer_input(input: &[u8], out: &mut [u8]) -> usize
    requires { most_bytes ≤ length out.old }
    ensures { Printed input.now out.old out.new result }
{
    match old_layout::add_lifetimes(input, out) {
        Ok(n) => n,
        Err(e) => {
            let mut line = Writer::new(out);
            put_error(e, &mut line);
            line.at
        }
    }
}
