// The check of an input: client, domain, sender, HELO, receiver and t, a line each, and then the answer table; and the lines that answer it.
#![tactic(auto)]

ghost use Rattle.std.specs.Prelude.{◌≤◌, length, replicate};
ghost use Rattle.text.specs.Writing.{Writes};
ghost use Rattle.evaluation.specs.Evaluating.{evaluated};
ghost use Rattle.evaluation.specs.Second.{lent};
ghost use Rattle.evaluation.specs.Together.{one_gave};
ghost use Rattle.check_input.specs.Input.{checked_lines};
ghost use Rattle.check_input.specs.Lines.{given_lines, lines_of, answered, Stands, WritesAfterFail};

use address::Address;
use domain::MOST_NAME;
use evaluation::explaining::Explanation;
use evaluation::{Answer, evaluate, explaining};
use lines::{put_line, put_named, put_number, put_refusal};
use rules::Counts;
use text::bytes::part;
use text::decimal;
use text::fields::{after_fields, field};
use text::writing::Writer;

pub mod keeping;
pub mod lines;

// The second call, after a fail of the domain's record: writes its number, text or question with the counts and the lifetime of the first, or a refusal with
// counts and a lifetime of 0.
fn answer_fail(
    client: Address,
    domain: &[u8],
    sender: &[u8],
    helo: &[u8],
    receiver: &[u8],
    seconds: u64,
    table: &[u8],
    place: usize,
    size: usize,
    counts: Counts,
    lifetime: u32,
    out: &mut Writer,
)
    ensures { WritesAfterFail (lent client domain.now sender.now helo.now receiver.now seconds table.now place size (replicate 253 0) (replicate 500 0)) counts lifetime out.old out.new }
{
    let mut name = [0u8; MOST_NAME];
    let mut text = [0u8; 500];
    let explained = match explaining::explain(
        client, domain, sender, helo, receiver, seconds, table, place, size, &mut name, &mut text,
    ) {
        Ok(explained) => explained,
        Err(refusal) => return put_refusal(refusal, out),
    };
    match explained {
        Explanation::Text(n) => {
            put_number(3, counts, lifetime, out);
            put_line(part(&text, 0, n), out);
        }
        Explanation::Wanting(question) => {
            let asked = part(&name, 0, question.length);
            put_named(question.kind, counts, lifetime, asked, out);
        }
    }
}

// Both calls: writes what they give together.
fn answer_calls(
    client: Address,
    domain: &[u8],
    sender: &[u8],
    helo: &[u8],
    receiver: &[u8],
    seconds: u64,
    table: &[u8],
    out: &mut Writer,
)
    ensures { Writes (given_lines (one_gave (evaluated client domain.now sender.now helo.now receiver.now seconds table.now (replicate 253 0) (replicate 500 0)))) out.old out.new }
{
    let mut name = [0u8; MOST_NAME];
    let answer = match evaluate(
        client, domain, sender, helo, receiver, seconds, table, &mut name,
    ) {
        Ok(answer) => answer,
        Err(refusal) => return put_refusal(refusal, out),
    };
    match answer {
        Answer::Decided {
            value,
            counts,
            lifetime,
        } => put_number(value, counts, lifetime, out),
        Answer::Fail {
            counts,
            lifetime,
            domain: n,
            place,
            length: size,
        } => answer_fail(
            client,
            part(&name, 0, n),
            sender,
            helo,
            receiver,
            seconds,
            table,
            place,
            size,
            counts,
            lifetime,
            out,
        ),
        Answer::Wanting {
            question,
            counts,
            lifetime,
        } => {
            let asked = part(&name, 0, question.length);
            put_named(question.kind, counts, lifetime, asked, out);
        }
    }
}

// Checks with client and t as they are written.
fn answer_lines(
    client: &[u8],
    domain: &[u8],
    sender: &[u8],
    helo: &[u8],
    receiver: &[u8],
    seconds: &[u8],
    table: &[u8],
    out: &mut Writer,
)
    ensures { Writes (lines_of (checked_lines client.now domain.now sender.now helo.now receiver.now seconds.now table.now (replicate 253 0) (replicate 500 0))) out.old out.new }
{
    let Some(a) = networks::read_address(client) else {
        return put_line(b"input", out);
    };
    let Some(t) = decimal::read_decimal(seconds, u64::MAX) else {
        return put_line(b"input", out);
    };
    answer_calls(a, domain, sender, helo, receiver, t, table, out);
}

// Checks a whole input and writes what the program prints, which never has more than 640 bytes.
pub fn answer_input(input: &[u8], out: &mut [u8]) -> usize
    requires { 640 ≤ length out.old }
    ensures { Stands (lines_of (answered input.now)) out.old out.new result }
{
    let mut w = Writer::new(out);
    answer_lines(
        field(input, 10, 0),
        field(input, 10, 1),
        field(input, 10, 2),
        field(input, 10, 3),
        field(input, 10, 4),
        field(input, 10, 5),
        after_fields(input, 10, 6),
        &mut w,
    );
    w.at
}
