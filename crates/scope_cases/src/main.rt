// Runs the cases of the scope paper's sections "Both sides of each line" and "Errors that look right" and of the list of readings, a line each, and prints what is
// answered to each, led by the case's label. Bytes stand in hex, `-` for none.
//
//     record LABEL RECORD               `accepted` and the place after the version, or `refused`, number, `at`, place
//     listing LABEL INPUT               what the record printer prints
//     term LABEL RECORD PLACE           `end`; `refused`, number, `at`, place; or place, next place and the term as the record printer shows it
//     expand LABEL FORM CLIENT DOMAIN SENDER P TEXT
//                                       `ok` and the expansion, or `refused` and the number; HELO is helo.example, the receiver empty, t 7
//     match LABEL CLIENT NETWORK LENGTH
//                                       1 if they match at that prefix length, else 0
//     check LABEL INPUT                 what the check program prints: number, kind or place, both counts and the lifetime, and for 3 and 7 the text or name on a second line;
//                                       `input` for a client or t that cannot be read. INPUT is client, domain, sender, HELO, receiver and t, a line
//                                       each, and the table
//     wide LABEL COUNT BYTE FRONT REST  the same of an input that is FRONT, so many of a byte, and REST, held chunk by chunk
//     lent LABEL NAME TEXT ZEROS INPUT  the same with buffers of these lengths and so many zero bytes after the table
//
// FORM is `domain-spec` or `explanation`. Any other line is printed as it is.
#![tactic(auto)]

mod checks;

use case_support::{number_of, unhexed, word};
use macros::{ExpandError, Form, Given};
use std::io;
use text::bytes::part;

fn run_record(rt: &impl Print, line: &[u8]) -> io::Result<()> {
    let mut s = [0u8; 8192];
    let mut out = [0u8; 64];
    let size = record_listing::put_reading(unhexed(word(line, 2), &mut s), &mut out);
    rt.write_all(part(&out, 0, size))
}

// Runs the record printer.
fn run_listing(rt: &impl Print, line: &[u8]) -> io::Result<()> {
    let mut input = [0u8; 8192];
    let mut out = record_listing::buffer();
    let n = case_support::unhex(word(line, 2), &mut input);
    let size = record_listing::list_input(&input, n, &mut out);
    rt.write_all(part(&out, 0, size))
}

// Reads the term of a record at a place and prints what is answered.
fn print_term_at(rt: &impl Print, s: &[u8], place: usize) -> io::Result<()> {
    let mut out = [0u8; 16384];
    let size = record_listing::put_term_answer(s, records::read_term(s, place), &mut out);
    rt.write_all(part(&out, 0, size))
}

fn run_term(rt: &impl Print, line: &[u8]) -> io::Result<()> {
    let mut s = [0u8; 8192];
    let place = number_of(word(line, 3)) as usize;
    print_term_at(rt, unhexed(word(line, 2), &mut s), place)
}

fn run_match(rt: &impl Print, line: &[u8]) -> io::Result<()> {
    let client = case_support::address_of(word(line, 2));
    let network = case_support::address_of(word(line, 3));
    let length = number_of(word(line, 4)) as usize;
    case_support::print_test(rt, address::matches(client, network, length))
}

// The form that a word names.
fn form_of(word: &[u8]) -> Form {
    match word {
        b"explanation" => Form::Explanation,
        _ => Form::DomainSpec,
    }
}

// Prints a text with a space before it, if there is one, and the line's end.
fn print_rest(rt: &impl Print, text: &[u8]) -> io::Result<()> {
    if 0 < text.len() {
        rt.write_all(b" ")?;
    }
    case_support::print_line(rt, text)
}

// Prints what an expansion answered.
fn print_expanded(
    rt: &impl Print,
    answer: Result<usize, ExpandError>,
    out: &[u8],
) -> io::Result<()> {
    match answer {
        Ok(n) => {
            rt.write_all(b"ok")?;
            print_rest(rt, part(out, 0, n))
        }
        Err(e) => {
            rt.write_all(b"refused ")?;
            case_support::print_number_line(rt, e.number() as usize)
        }
    }
}

fn run_expand(rt: &impl Print, line: &[u8]) -> io::Result<()> {
    let mut domain = [0u8; 1024];
    let mut sender = [0u8; 1024];
    let mut p = [0u8; 1024];
    let mut text = [0u8; 8192];
    let mut out = [0u8; 4096];
    let given = Given {
        sender: unhexed(word(line, 5), &mut sender),
        helo: b"helo.example",
        receiver: b"",
        domain: unhexed(word(line, 4), &mut domain),
        p: unhexed(word(line, 6), &mut p),
        client: case_support::address_of(word(line, 3)),
        seconds: 7,
    };
    let text = unhexed(word(line, 7), &mut text);
    let answer = macros::expand(form_of(word(line, 2)), text, &given, &mut out);
    print_expanded(rt, answer, &out)
}

// A number that a word writes, as a length.
fn length_of(word: &[u8]) -> usize {
    (number_of(word) % 65537) as usize
}

fn run_check(rt: &impl Print, line: &[u8]) -> io::Result<()> {
    checks::run(rt, word(line, 2))
}

fn run_wide(rt: &impl Print, line: &[u8]) -> io::Result<()> {
    let count = number_of(word(line, 2)) % 1000000;
    let byte = number_of(word(line, 3)) % 256;
    checks::run_wide(rt, word(line, 4), word(line, 5), byte as u8, count as usize)
}

fn run_lent(rt: &impl Print, line: &[u8]) -> io::Result<()> {
    let name = length_of(word(line, 2));
    let text = length_of(word(line, 3));
    let zeros = length_of(word(line, 4));
    checks::run_lent(rt, word(line, 5), name, text, zeros)
}

// Runs a case of a kind, once its label is printed.
fn run_case(rt: &impl Print, kind: &[u8], line: &[u8]) -> io::Result<()> {
    match kind {
        b"record" => run_record(rt, line),
        b"listing" => run_listing(rt, line),
        b"term" => run_term(rt, line),
        b"expand" => run_expand(rt, line),
        b"match" => run_match(rt, line),
        b"wide" => run_wide(rt, line),
        b"lent" => run_lent(rt, line),
        _ => run_check(rt, line),
    }
}

fn run_line(rt: &impl Print, line: &[u8]) -> io::Result<()> {
    let kind = word(line, 0);
    match kind {
        b"check" | b"wide" | b"lent" | b"record" | b"listing" | b"term" | b"expand" | b"match" => {
            rt.write_all(word(line, 1))?;
            rt.write_all(b" ")?;
            run_case(rt, kind, line)
        }
        _ => case_support::print_line(rt, line),
    }
}

// At most as many lines as the budget says.
fn main(rt: HostRuntime) -> io::Result<()> {
    let mut input = rt.reader();
    let mut line = [0u8; 20000];
    for _ in 0..1000000 {
        let Some(n) = case_support::read_line(&mut input, &mut line)? else {
            break;
        };
        run_line(&rt, part(&line, 0, n))?;
    }
    Ok(())
}
