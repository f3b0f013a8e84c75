// Runs the calls of the Received-SPF line, a line each, and prints a line for each answer. Bytes stand in hex, `-` for none.
//
//     write RESULT CLIENT SENDER HELO RECEIVER IDENTITY BUFFER
//                                       `ok` and the line that is written
//     read LINE                         `ok`, the result, and where each value's part begins and ends: receiver, client, sender, HELO, identity
//     unquote PART BUFFER               `ok` and the part's value
//     print INPUT                       what the program received_line prints of an input
//
// A refusal is `refused` and its number. CLIENT is the address's octets, IDENTITY 0 for mailfrom and 1 for helo, BUFFER the lent buffer's length. `touched`
// comes after an answer if the call changed a byte that it doesn't say it wrote. Any other line is printed as it is.
#![tactic(auto)]

use case_support::is_kept;
use received::{Checked, Identity, Parts};
use std::io;
use text::bytes::part;
use text::spans::Span;

// Prints a number after a space.
fn print_next(rt: &impl Print, n: usize) -> io::Result<()> {
    rt.write_all(b" ")?;
    rt.print(n)
}

// Prints the end of an answer, and whether a buffer is kept from a place on.
fn print_rest(rt: &impl Print, out: &[u8], from: usize) -> io::Result<()> {
    if is_kept(out, from) {
        case_support::print_line(rt, b"")
    } else {
        case_support::print_line(rt, b" touched")
    }
}

// Prints a refusal's number.
fn print_refusal(rt: &impl Print, number: u8) -> io::Result<()> {
    rt.write_all(b"refused")?;
    print_next(rt, usize::from(number))
}

// Prints what a call wrote at the front of a buffer, or its refusal's number.
fn print_written(rt: &impl Print, answer: Result<usize, u8>, out: &[u8]) -> io::Result<()> {
    match answer {
        Ok(n) => {
            rt.write_all(b"ok ")?;
            case_support::print_bytes(rt, part(out, 0, n))?;
            print_rest(rt, out, n)
        }
        Err(number) => {
            print_refusal(rt, number)?;
            print_rest(rt, out, 0)
        }
    }
}

// Prints where a part begins and ends.
fn print_part(rt: &impl Print, p: Span) -> io::Result<()> {
    print_next(rt, p.from)?;
    print_next(rt, p.to)
}

fn print_parts(rt: &impl Print, parts: Parts) -> io::Result<()> {
    rt.write_all(b"ok")?;
    print_next(rt, usize::from(parts.result))?;
    print_part(rt, parts.receiver)?;
    print_part(rt, parts.client)?;
    print_part(rt, parts.sender)?;
    print_part(rt, parts.helo)?;
    print_part(rt, parts.identity)
}

// The result's number that a word writes.
fn result_of(word: &[u8]) -> u8 {
    (case_support::number_of(word) % 256) as u8
}

// The identity of a word, 0 or 1.
fn identity_of(word: &[u8]) -> Identity {
    match word {
        b"1" => Identity::Helo,
        _ => Identity::MailFrom,
    }
}

// Writes a line into the front of a buffer; 0 if the buffer is shorter than that.
fn write_front(line: &[u8], checked: &Checked, out: &mut [u8]) -> Result<usize, u8> {
    let result = result_of(case_support::word(line, 1));
    let room = case_support::number_of(case_support::word(line, 7)) as usize;
    if out.len() < room {
        return Err(0);
    }
    received::write_line(result, checked, &mut out[..room]).map_err(|e| e.number())
}

fn run_write(rt: &impl Print, line: &[u8]) -> io::Result<()> {
    let mut sender = [0u8; 1024];
    let mut helo = [0u8; 1024];
    let mut receiver = [0u8; 1024];
    let mut out = [0u8; 5000];
    let s = case_support::unhex(case_support::word(line, 3), &mut sender);
    let h = case_support::unhex(case_support::word(line, 4), &mut helo);
    let r = case_support::unhex(case_support::word(line, 5), &mut receiver);
    let checked = Checked {
        client: case_support::address_of(case_support::word(line, 2)),
        sender: part(&sender, 0, s),
        helo: part(&helo, 0, h),
        receiver: part(&receiver, 0, r),
        identity: identity_of(case_support::word(line, 6)),
    };
    case_support::fill(&mut out);
    let answer = write_front(line, &checked, &mut out);
    print_written(rt, answer, &out)
}

fn run_read(rt: &impl Print, line: &[u8]) -> io::Result<()> {
    let mut s = [0u8; 4097];
    let n = case_support::unhex(case_support::word(line, 1), &mut s);
    match received::read_line(part(&s, 0, n)) {
        Ok(parts) => print_parts(rt, parts)?,
        Err(e) => print_refusal(rt, e.number())?,
    }
    case_support::print_line(rt, b"")
}

// Writes a part's value into the front of a buffer; 0 if the buffer is shorter than that.
fn unquote_front(line: &[u8], s: &[u8], out: &mut [u8]) -> Result<usize, u8> {
    let room = case_support::number_of(case_support::word(line, 2)) as usize;
    if out.len() < room {
        return Err(0);
    }
    received::unquote(s, &mut out[..room]).map_err(|e| e.number())
}

fn run_unquote(rt: &impl Print, line: &[u8]) -> io::Result<()> {
    let mut s = [0u8; 1024];
    let mut out = [0u8; 5000];
    let n = case_support::unhex(case_support::word(line, 1), &mut s);
    case_support::fill(&mut out);
    let answer = unquote_front(line, part(&s, 0, n), &mut out);
    print_written(rt, answer, &out)
}

// Writes what is printed of an input into the front of a buffer, the 1,500 bytes that are enough.
fn answer_front(s: &[u8], out: &mut [u8]) -> usize {
    if 1500 <= out.len() {
        line_input::answer_input(s, &mut out[..1500])
    } else {
        0
    }
}

fn run_print(rt: &impl Print, line: &[u8]) -> io::Result<()> {
    let mut s = [0u8; 4097];
    let mut out = [0u8; 5000];
    let n = case_support::unhex(case_support::word(line, 1), &mut s);
    case_support::fill(&mut out);
    let size = answer_front(part(&s, 0, n), &mut out);
    case_support::print_bytes(rt, part(&out, 0, size))?;
    print_rest(rt, &out, size)
}

fn run_line(rt: &impl Print, line: &[u8]) -> io::Result<()> {
    match case_support::word(line, 0) {
        b"write" => run_write(rt, line),
        b"read" => run_read(rt, line),
        b"unquote" => run_unquote(rt, line),
        b"print" => run_print(rt, line),
        _ => case_support::print_line(rt, line),
    }
}

// At most a million lines.
fn main(rt: HostRuntime) -> io::Result<()> {
    let mut input = rt.reader();
    let mut line = [0u8; 10000];
    for _ in 0..1000000 {
        let Some(n) = case_support::read_line(&mut input, &mut line)? else {
            return Ok(());
        };
        run_line(&rt, part(&line, 0, n))?;
    }
    Ok(())
}
