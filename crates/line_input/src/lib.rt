// What the program received_line prints of an input: six lines from which a Received-SPF line is written, or such a line, which is read back.
#![tactic(auto)]

ghost use Rattle.std.specs.Prelude.{◌≤◌, ◌≡◌, length};
ghost use Rattle.text.specs.Writing.{Writes};
ghost use Rattle.received.specs.Quoting.{unescaped};
ghost use Rattle.received.specs.Numbers.{error_number};
ghost use Rattle.received.specs.Answers.{given_of};
ghost use Rattle.text.specs.Fields.{field};
ghost use Rattle.received.specs.RoundTrip.{bytes_at};
ghost use Rattle.line_input.specs.Lines.{line, refusal_line, room, Printed};
ghost use Rattle.line_input.specs.Reader.{opens, has_six_lines, identity_named, part_lines, read_text, written_text, lines_text, printed};

use received::{Checked, Identity, LineError, MOST_LINE, Parts, lines, quoting, reading};
use text::fields::{after_fields, field};
use text::spans::Span;
use text::writing::Writer;
use text::{bytes, words};

// The most bytes of six lines; no line of them that is accepted comes near it.
pub const MOST_INPUT: usize = 4096;

// How much of an input decides what is printed: one byte more.
pub const READ: usize = 4097;

// A text and the line's end.
fn put_line(s: &[u8], out: &mut Writer)
    ensures { Writes (line s.now) out.old out.new }
{
    out.put_all(s);
    out.put(b'\n');
}

// A refusal's number.
fn put_refusal(e: LineError, out: &mut Writer)
    ensures { Writes (refusal_line (error_number e)) out.old out.new }
{
    out.put_all(b"refused ");
    address_text::put_decimal(u64::from(e.number()), out);
    out.put(b'\n');
}

// The value of a part, and the line's end.
fn put_value(s: &[u8], p: Span, out: &mut Writer)
    ensures { Writes (line (unescaped (bytes_at s.now p))) out.old out.new }
{
    quoting::put_unescaped(p.of(s), out);
    out.put(b'\n');
}

// The result's word and the five values, in the order of the six lines.
fn put_parts(s: &[u8], parts: Parts, out: &mut Writer)
    ensures { Writes (part_lines s.now parts) out.old out.new }
{
    put_line(lines::word_of(parts.result), out);
    put_value(s, parts.client, out);
    put_value(s, parts.sender, out);
    put_value(s, parts.helo, out);
    put_value(s, parts.receiver, out);
    put_value(s, parts.identity, out);
}

// Reads a line back.
fn answer_line(s: &[u8], out: &mut Writer)
    ensures { Writes (read_text s.now) out.old out.new }
{
    match received::read_line(s) {
        Ok(parts) => put_parts(s, parts, out),
        Err(e) => put_refusal(e, out),
    }
}

// The identity of a word.
fn identity_named(w: &[u8]) -> Option<Identity>
    ensures { result ≡ identity_named w.now }
{
    if words::equal(w, b"mailfrom") {
        Some(Identity::MailFrom)
    } else if words::equal(w, b"helo") {
        Some(Identity::Helo)
    } else {
        None
    }
}

// Writes the line of these arguments, or the refusal.
fn answer_given(res: u8, checked: &Checked, out: &mut Writer)
    ensures { Writes (written_text (given_of res checked.now)) out.old out.new }
{
    let mut text = [0u8; MOST_LINE];
    match received::write_line(res, checked, &mut text) {
        Ok(n) => out.put_all(bytes::part(&text, 0, n)),
        Err(e) => put_refusal(e, out),
    }
}

// The same of six lines as they are written.
fn answer_lines(input: &[u8], out: &mut Writer)
    ensures { Writes (lines_text (field 10 0 input.now) (field 10 1 input.now) (field 10 2 input.now) (field 10 3 input.now) (field 10 4 input.now) (field 10 5 input.now)) out.old out.new }
{
    let number = reading::number_of(field(input, b'\n', 0));
    if 7 <= number {
        return put_line(b"input", out);
    }
    let Some(client) = networks::read_address(field(input, b'\n', 1)) else {
        return put_line(b"input", out);
    };
    let Some(identity) = identity_named(field(input, b'\n', 5)) else {
        return put_line(b"input", out);
    };
    let checked = Checked {
        client,
        sender: field(input, b'\n', 2),
        helo: field(input, b'\n', 3),
        receiver: field(input, b'\n', 4),
        identity,
    };
    answer_given(number, &checked, out)
}

// Whether an input begins as a line does.
fn is_opened(input: &[u8]) -> bool
    ensures { result ≡ opens input.now }
{
    words::equal(bytes::part(input, 0, 13), b"Received-SPF:")
}

// Whether an input is six lines: nothing follows the sixth.
fn has_six_lines(input: &[u8]) -> bool
    ensures { result ≡ has_six_lines input.now }
{
    input.len() <= MOST_INPUT && after_fields(input, b'\n', 6).is_empty()
}

// Writes what is printed of an input.
fn put_printed(input: &[u8], out: &mut Writer)
    ensures { Writes (printed input.now) out.old out.new }
{
    if is_opened(input) {
        answer_line(input, out)
    } else if has_six_lines(input) {
        answer_lines(input, out)
    } else {
        put_line(b"input", out)
    }
}

// Writes what the program prints of an input, which never has more than 1,500 bytes.
pub fn answer_input(input: &[u8], out: &mut [u8]) -> usize
    requires { room ≤ length out.old }
    ensures { Printed input.now out.old out.new result }
{
    let mut w = Writer::new(out);
    put_printed(input, &mut w);
    w.at
}
