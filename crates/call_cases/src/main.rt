// Runs the two calls of an evaluation, a line each, and prints a line for each answer. Bytes stand in hex, `-` for none.
//
//     first NAMEBUF CLIENT DOMAIN SENDER HELO RECEIVER T TABLE
//                                       number, kind or place, both counts, the lifetime, the name that is written, and the place and length of the exp
//                                       argument
//     second NAMEBUF TEXTBUF PLACE LENGTH CLIENT DOMAIN SENDER HELO RECEIVER T TABLE
//                                       number, kind or place, and the text or name that is written
//
// NAMEBUF and TEXTBUF are the lent buffers' lengths, CLIENT is the address's octets. `.` stands where there is no kind and no place, and for a buffer that
// stays; `touched` comes after an answer if the call changed a byte that it doesn't say it wrote. Any other line is printed as it is.
#![tactic(auto)]

use case_support::{is_kept, unhexed};
use evaluation::explaining::{Explanation, explain};
use evaluation::{Answer, Refusal, evaluate};
use rules::Counts;
use std::io;
use text::bytes::part;

// The arguments that both calls have, but the client and the time.
#[derive(Clone, Copy)]
struct Arguments<'a> {
    domain: &'a [u8],
    sender: &'a [u8],
    helo: &'a [u8],
    receiver: &'a [u8],
    table: &'a [u8],
}

// Whether two buffers are as they were before the call, each from a place on.
fn are_kept(a: &[u8], a_end: usize, b: &[u8], b_end: usize) -> bool {
    is_kept(a, a_end) && is_kept(b, b_end)
}

// Prints a number after a space.
fn print_next(rt: &impl Print, n: usize) -> io::Result<()> {
    rt.write_all(b" ")?;
    rt.print(n)
}

// Prints an answer's number without a kind or place.
fn print_number(rt: &impl Print, number: u8) -> io::Result<()> {
    rt.print(number)?;
    rt.write_all(b" .")
}

// Prints an answer's number and its kind or place.
fn print_placed(rt: &impl Print, number: u8, place: usize) -> io::Result<()> {
    rt.print(number)?;
    print_next(rt, place)
}

// Prints both counts and the lifetime.
fn print_counts(rt: &impl Print, counts: Counts, lifetime: u32) -> io::Result<()> {
    print_next(rt, counts.lookups as usize)?;
    print_next(rt, counts.voids as usize)?;
    print_next(rt, lifetime as usize)
}

// Prints what was written at the front of a buffer.
fn print_front(rt: &impl Print, out: &[u8], n: usize) -> io::Result<()> {
    rt.write_all(b" ")?;
    case_support::print_bytes(rt, part(out, 0, n))
}

// Prints the rest of an answer, and whether the buffers are kept.
fn print_rest(rt: &impl Print, rest: &[u8], kept: bool) -> io::Result<()> {
    rt.write_all(rest)?;
    case_support::print_line(rt, if kept { b"" } else { b" touched" })
}

// Prints a refusal's number and its place; 0 without a place for a call that isn't made.
fn print_refusal(rt: &impl Print, refusal: Option<Refusal>) -> io::Result<()> {
    let Some(refusal) = refusal else {
        return print_number(rt, 0);
    };
    match refusal.place() {
        Some(at) => print_placed(rt, refusal.number(), at),
        None => print_number(rt, refusal.number()),
    }
}

// Prints what the first call answered.
fn print_answer(
    rt: &impl Print,
    answer: Result<Answer, Option<Refusal>>,
    name: &[u8],
) -> io::Result<()> {
    match answer {
        Ok(
            Answer::Decided {
                value,
                counts,
                lifetime,
            },
        ) => {
            print_number(rt, value)?;
            print_counts(rt, counts, lifetime)?;
            print_rest(rt, b" . 0 0", is_kept(name, 0))
        }
        Ok(
            Answer::Fail {
                counts,
                lifetime,
                domain: n,
                place,
                length,
            },
        ) => {
            print_number(rt, 3)?;
            print_counts(rt, counts, lifetime)?;
            print_front(rt, name, n)?;
            print_next(rt, place)?;
            print_next(rt, length)?;
            print_rest(rt, b"", is_kept(name, n))
        }
        Ok(
            Answer::Wanting {
                question,
                counts,
                lifetime,
            },
        ) => {
            print_placed(rt, 7, question.kind as usize)?;
            print_counts(rt, counts, lifetime)?;
            print_front(rt, name, question.length)?;
            print_rest(rt, b" 0 0", is_kept(name, question.length))
        }
        Err(refusal) => {
            print_refusal(rt, refusal)?;
            print_rest(rt, b" 0 0 0 . 0 0", is_kept(name, 0))
        }
    }
}

// Prints what the second call answered.
fn print_explanation(
    rt: &impl Print,
    answer: Result<Explanation, Option<Refusal>>,
    name: &[u8],
    text: &[u8],
) -> io::Result<()> {
    match answer {
        Ok(Explanation::Text(n)) => {
            print_number(rt, 3)?;
            print_front(rt, text, n)?;
            print_rest(rt, b"", are_kept(name, 0, text, n))
        }
        Ok(Explanation::Wanting(question)) => {
            print_placed(rt, 7, question.kind as usize)?;
            print_front(rt, name, question.length)?;
            print_rest(rt, b"", are_kept(name, question.length, text, 0))
        }
        Err(refusal) => {
            print_refusal(rt, refusal)?;
            print_rest(rt, b" .", are_kept(name, 0, text, 0))
        }
    }
}

// The first call, which is lent the front of a buffer.
fn evaluate_front(
    line: &[u8],
    given: Arguments,
    name: &mut [u8],
) -> Result<Answer, Option<Refusal>> {
    let room = case_support::number_of(case_support::word(line, 1)) as usize;
    if name.len() < room {
        return Err(None);
    }
    evaluate(
        case_support::address_of(case_support::word(line, 2)),
        given.domain,
        given.sender,
        given.helo,
        given.receiver,
        case_support::number_of(case_support::word(line, 7)),
        given.table,
        &mut name[..room],
    )
    .map_err(Some)
}

// The second call on the fronts of two buffers of these lengths.
fn explain_front(
    line: &[u8],
    given: Arguments,
    name: &mut [u8],
    text: &mut [u8],
) -> Result<Explanation, Option<Refusal>> {
    let name_room = case_support::number_of(case_support::word(line, 1)) as usize;
    let text_room = case_support::number_of(case_support::word(line, 2)) as usize;
    if name.len() < name_room || text.len() < text_room {
        return Err(None);
    }
    explain(
        case_support::address_of(case_support::word(line, 5)),
        given.domain,
        given.sender,
        given.helo,
        given.receiver,
        case_support::number_of(case_support::word(line, 10)),
        given.table,
        case_support::number_of(case_support::word(line, 3)) as usize,
        case_support::number_of(case_support::word(line, 4)) as usize,
        &mut name[..name_room],
        &mut text[..text_room],
    )
    .map_err(Some)
}

// The call that a line names, once the arguments are read.
fn run_call(rt: &impl Print, line: &[u8], given: Arguments) -> io::Result<()> {
    let mut name = [0u8; 512];
    case_support::fill(&mut name);
    if case_support::word(line, 0) == b"first".as_slice() {
        let answer = evaluate_front(line, given, &mut name);
        return print_answer(rt, answer, &name);
    }
    let mut text = [0u8; 1024];
    case_support::fill(&mut text);
    let explanation = explain_front(line, given, &mut name, &mut text);
    print_explanation(rt, explanation, &name, &text)
}

// Reads the arguments that both calls have, from the word after the client's on, and runs the call. The table's space is one byte more than a table may have.
fn run_arguments(rt: &impl Print, line: &[u8], at: u8) -> io::Result<()> {
    let mut domain = [0u8; 1024];
    let mut sender = [0u8; 1024];
    let mut helo = [0u8; 1024];
    let mut receiver = [0u8; 1024];
    let mut table = [0u8; 65536];
    let at = at as usize;
    let given = Arguments {
        domain: unhexed(case_support::word(line, at), &mut domain),
        sender: unhexed(case_support::word(line, at + 1), &mut sender),
        helo: unhexed(case_support::word(line, at + 2), &mut helo),
        receiver: unhexed(case_support::word(line, at + 3), &mut receiver),
        table: unhexed(case_support::word(line, at + 5), &mut table),
    };
    run_call(rt, line, given)
}

fn run_line(rt: &impl Print, line: &[u8]) -> io::Result<()> {
    match case_support::word(line, 0) {
        b"first" => run_arguments(rt, line, 3),
        b"second" => run_arguments(rt, line, 6),
        _ => case_support::print_line(rt, line),
    }
}

// At most as many lines as the budget says.
fn main(rt: HostRuntime) -> io::Result<()> {
    let mut input = rt.reader();
    let mut line = [0u8; 140000];
    for _ in 0..1000000 {
        let Some(n) = case_support::read_line(&mut input, &mut line)? else {
            break;
        };
        run_line(&rt, part(&line, 0, n))?;
    }
    Ok(())
}
