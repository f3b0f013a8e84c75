// Rewrites tables of the old layout, a line each, and prints a line for each answer. Bytes stand in hex, `-` for none.
//
//     call OLD ROOM                     `ok` and the new table; or `refused`, the number, and the place, `.` where it has none
//     program INPUT                     what the program add_lifetimes prints of an input
//
// ROOM is the lent buffer's length. `touched` comes after an answer if the call changed a byte that it doesn't say it wrote. Any other line is printed as it
// is.
#![tactic(auto)]

use answer_table::TableError;
use case_support::is_kept;
use std::io;
use text::bytes::part;

// Prints the end of an answer, and whether a buffer is kept from a place on.
fn print_rest(rt: &impl Print, out: &[u8], from: usize) -> io::Result<()> {
    if is_kept(out, from) {
        return case_support::print_line(rt, b"");
    }
    case_support::print_line(rt, b" touched")
}

// Prints a refusal with a place.
fn print_refusal(rt: &impl Print, number: u64, place: usize) -> io::Result<()> {
    rt.write_all(b"refused ")?;
    rt.print(number)?;
    rt.write_all(b" ")?;
    rt.print(place)
}

fn print_answer(rt: &impl Print, answer: Result<usize, TableError>, out: &[u8]) -> io::Result<()> {
    let mut written = 0;
    match answer {
        Ok(n) => {
            rt.write_all(b"ok ")?;
            case_support::print_bytes(rt, part(out, 0, n))?;
            written = n;
        }
        Err(TableError::TooLong) => rt.write_all(b"refused 24 .")?,
        Err(TableError::Malformed(place)) => print_refusal(rt, 25, place)?,
        Err(TableError::Repeated(place)) => print_refusal(rt, 26, place)?,
    }
    print_rest(rt, out, written)
}

// Lends the front of a buffer.
fn lend(old: &[u8], room: usize, out: &mut [u8]) -> Result<usize, TableError> {
    if room <= out.len() {
        return old_layout::add_lifetimes(old, &mut out[..room]);
    }
    Err(TableError::TooLong)
}

fn run_call(rt: &impl Print, line: &[u8]) -> io::Result<()> {
    let mut old = [0u8; 66000];
    let mut out = [0u8; 66000];
    let n = case_support::unhex(case_support::word(line, 1), &mut old);
    let room = case_support::number_of(case_support::word(line, 2)) as usize;
    case_support::fill(&mut out);
    let answer = lend(part(&old, 0, n), room, &mut out);
    print_answer(rt, answer, &out)
}

fn run_program(rt: &impl Print, line: &[u8]) -> io::Result<()> {
    let mut input = [0u8; 66000];
    let mut out = [0u8; rewrite_input::ROOM];
    let n = case_support::unhex(case_support::word(line, 1), &mut input);
    case_support::fill(&mut out);
    let size = rewrite_input::answer_input(part(&input, 0, n), &mut out);
    case_support::print_bytes(rt, part(&out, 0, size))?;
    print_rest(rt, &out, size)
}

fn run_line(rt: &impl Print, line: &[u8]) -> io::Result<()> {
    let kind = case_support::word(line, 0);
    if kind == b"call".as_slice() {
        run_call(rt, line)
    } else if kind == b"program".as_slice() {
        run_program(rt, line)
    } else {
        case_support::print_line(rt, line)
    }
}

// At most as many lines as the budget says.
fn main(rt: HostRuntime) -> io::Result<()> {
    let mut input = rt.reader();
    let mut line = [0u8; 140000];
    for _ in 0..1000000 {
        let Some(n) = case_support::read_line(&mut input, &mut line)? else {
            return Ok(());
        };
        run_line(&rt, part(&line, 0, n))?;
    }
    Ok(())
}
