// Checks of whole inputs: as the check program makes them, and with lent buffers of some length.
ghost use Rattle.std.specs.Prelude.{◌≤◌, length};
ghost use Rattle.check_input.specs.Keeping.{most_kept, held_room};

use address::Address;
use check_input::keeping::hold;
use check_input::lines::{put_line, put_named, put_number, put_refusal};
use evaluation::explaining::Explanation;
use evaluation::{Answer, evaluate, explaining};
use rules::Counts;
use std::io;
use text::bytes::part;
use text::decimal;
use text::fields::{after_fields, field};
use text::writing::Writer;

// Prints the answer to what is held.
fn print_held(rt: &impl Print, input: &[u8]) -> io::Result<()> {
    let mut out = [0u8; 640];
    let size = check_input::answer_input(input, &mut out);
    rt.write_all(part(&out, 0, size))
}

// Runs the input that a word writes in hex.
pub fn run(rt: &impl Print, word: &[u8]) -> io::Result<()> {
    let mut held = [0u8; 132234];
    let mut input = [0u8; 16384];
    let n = case_support::unhex(word, &mut input);
    let size = hold(&mut held, 0, &input, n);
    print_held(rt, part(&held, 0, size))
}

// Adds so many of a byte to what is held, in chunks of 4,096.
fn hold_many(held: &mut [u8], n: usize, byte: u8, count: usize) -> usize
    requires n_le_most_kept { n ≤ most_kept }
    requires held_room_in_bounds { held_room ≤ length held.old }
    ensures { result ≤ most_kept }
{
    let chunk = [byte; 4096];
    let mut size = n;
    for _ in 0..count / 4096 {
        size = hold(held, size, &chunk, 4096);
    }
    hold(held, size, &chunk, count % 4096)
}

// Runs the input that two words write in hex, with so many of a byte between them.
pub fn run_wide(
    rt: &impl Print,
    front: &[u8],
    rest: &[u8],
    byte: u8,
    count: usize,
) -> io::Result<()> {
    let mut held = [0u8; 132234];
    let mut before = [0u8; 8192];
    let mut after = [0u8; 8192];
    let n = case_support::unhex(front, &mut before);
    let m = case_support::unhex(rest, &mut after);
    let first = hold(&mut held, 0, &before, n);
    let middle = hold_many(&mut held, first, byte, count);
    let size = hold(&mut held, middle, &after, m);
    print_held(rt, part(&held, 0, size))
}

// Writes the second call's answer with the counts and the lifetime of the first; `domain` is the failing record's.
fn explain_lent(
    client: Address,
    domain: &[u8],
    input: &[u8],
    t: u64,
    place: usize,
    size: usize,
    counts: Counts,
    lifetime: u32,
    name: &mut [u8],
    text: &mut [u8],
    out: &mut Writer,
) {
    match explaining::explain(
        client,
        domain,
        field(input, 10, 2),
        field(input, 10, 3),
        field(input, 10, 4),
        t,
        after_fields(input, 10, 6),
        place,
        size,
        name,
        text,
    ) {
        Ok(Explanation::Text(n)) => {
            put_number(3, counts, lifetime, out);
            put_line(part(text, 0, n), out);
        }
        Ok(Explanation::Wanting(question)) => {
            let asked = part(name, 0, question.length);
            put_named(question.kind, counts, lifetime, asked, out);
        }
        Err(refusal) => put_refusal(refusal, out),
    }
}

// Writes what both calls give; the second is lent another name buffer.
fn call_lent(
    client: Address,
    input: &[u8],
    t: u64,
    name: &mut [u8],
    question: &mut [u8],
    text: &mut [u8],
    out: &mut Writer,
) {
    match evaluate(
        client,
        field(input, 10, 1),
        field(input, 10, 2),
        field(input, 10, 3),
        field(input, 10, 4),
        t,
        after_fields(input, 10, 6),
        name,
    ) {
        Ok(
            Answer::Decided {
                value,
                counts,
                lifetime,
            },
        ) => put_number(value, counts, lifetime, out),
        Ok(
            Answer::Fail {
                counts,
                lifetime,
                domain: n,
                place,
                length: size,
            },
        ) => explain_lent(
            client,
            part(name, 0, n),
            input,
            t,
            place,
            size,
            counts,
            lifetime,
            question,
            text,
            out,
        ),
        Ok(
            Answer::Wanting {
                question,
                counts,
                lifetime,
            },
        ) => {
            let asked = part(name, 0, question.length);
            put_named(question.kind, counts, lifetime, asked, out);
        }
        Err(refusal) => put_refusal(refusal, out),
    }
}

// Both calls for an input whose client and t can be read.
fn read_lent(
    input: &[u8],
    name: &mut [u8],
    question: &mut [u8],
    text: &mut [u8],
    out: &mut Writer,
) {
    let Some(a) = networks::read_address(field(input, 10, 0)) else {
        return put_line(b"input", out);
    };
    let Some(t) = decimal::read_decimal(field(input, 10, 5), u64::MAX) else {
        return put_line(b"input", out);
    };
    call_lent(a, input, t, name, question, text, out);
}

// Prints both calls' lines.
fn print_lent(
    rt: &impl Print,
    input: &[u8],
    name: &mut [u8],
    question: &mut [u8],
    text: &mut [u8],
) -> io::Result<()> {
    let mut out = [0u8; 2048];
    let mut w = Writer::new(&mut out);
    read_lent(input, name, question, text, &mut w);
    let size = w.at;
    rt.write_all(part(&out, 0, size))
}

// Runs the check that a word writes in hex, with buffers of at most 1,024 bytes and so many zero bytes after its table.
pub fn run_lent(
    rt: &impl Print,
    word: &[u8],
    name_room: usize,
    text_room: usize,
    zeros: usize,
) -> io::Result<()> {
    let mut input = [0u8; 73728];
    let mut name = [0u8; 1024];
    let mut question = [0u8; 1024];
    let mut text = [0u8; 1024];
    let n = case_support::unhex(word, &mut input);
    if 65536 < zeros || 1024 < name_room || 1024 < text_room {
        return case_support::print_line(rt, b"too long");
    }
    print_lent(
        rt,
        part(&input, 0, n + zeros),
        &mut name[..name_room],
        &mut question[..name_room],
        &mut text[..text_room],
    )
}
