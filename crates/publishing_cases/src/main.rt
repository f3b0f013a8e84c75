// Holds records against the house rules, a line each, and prints a line for each answer. Bytes stand in hex, `-` for none.
//
//     house DOMAIN RECORD LIST          `ok` and the list's breaches; or `refused`, the number, and the place, `.` where it has none
//     lint INPUT                        what the program lint_record prints of an input
//
// LIST is the lent list's length. `touched` comes after an answer if the call changed a byte that it doesn't say it wrote. Any other line is printed as it
// is.
#![tactic(auto)]

use case_support::is_kept;
use publishing::HouseError;
use std::io;
use text::bytes::part;

// Prints the end of an answer, and whether a buffer is kept from a place on.
fn print_rest(rt: &impl Print, out: &[u8], from: usize) -> io::Result<()> {
    if is_kept(out, from) {
        return case_support::print_line(rt, b"");
    }
    case_support::print_line(rt, b" touched")
}

// Prints a refusal's number.
fn print_refusal(rt: &impl Print, number: u8) -> io::Result<()> {
    rt.write_all(b"refused ")?;
    rt.print(number)
}

fn print_answer(
    rt: &impl Print,
    answer: Option<Result<usize, HouseError>>,
    out: &[u8],
) -> io::Result<()> {
    match answer {
        Some(Ok(n)) => {
            rt.write_all(b"ok ")?;
            case_support::print_bytes(rt, part(out, 0, 3 * (n % 1000)))?;
            print_rest(rt, out, 3 * (n % 1000))
        }
        Some(Err(HouseError::Record(refusal))) => {
            print_refusal(rt, refusal.reason.number())?;
            rt.write_all(b" ")?;
            rt.print(refusal.at)?;
            print_rest(rt, out, 0)
        }
        Some(Err(e)) => {
            print_refusal(rt, e.number())?;
            rt.write_all(b" .")?;
            print_rest(rt, out, 0)
        }
        None => {
            print_refusal(rt, 0)?;
            rt.write_all(b" .")?;
            print_rest(rt, out, 0)
        }
    }
}

// Lends the front of a buffer, if it is that long.
fn hold(
    domain: &[u8],
    record: &[u8],
    room: usize,
    out: &mut [u8],
) -> Option<Result<usize, HouseError>> {
    let list = out.get_mut(..room)?;
    Some(publishing::house_rules(domain, record, list))
}

fn run_house(rt: &impl Print, line: &[u8]) -> io::Result<()> {
    let mut domain = [0u8; 512];
    let mut record = [0u8; 5000];
    let mut out = [0u8; 5000];
    let domain = case_support::unhexed(case_support::word(line, 1), &mut domain);
    let record = case_support::unhexed(case_support::word(line, 2), &mut record);
    let room = case_support::number_of(case_support::word(line, 3)) as usize;
    case_support::fill(&mut out);
    let answer = hold(domain, record, room, &mut out);
    print_answer(rt, answer, &out)
}

fn run_lint(rt: &impl Print, line: &[u8]) -> io::Result<()> {
    let mut input = [0u8; 5000];
    let mut out = breach_listing::buffer();
    let input = case_support::unhexed(case_support::word(line, 1), &mut input);
    case_support::fill(&mut out);
    let size = breach_listing::answer_input(input, &mut out);
    case_support::print_bytes(rt, part(&out, 0, size))?;
    print_rest(rt, &out, size)
}

fn run_line(rt: &impl Print, line: &[u8]) -> io::Result<()> {
    match case_support::word(line, 0) {
        b"house" => run_house(rt, line),
        b"lint" => run_lint(rt, line),
        _ => case_support::print_line(rt, line),
    }
}

// At most so many lines.
fn main(rt: HostRuntime) -> io::Result<()> {
    let mut input = rt.reader();
    let mut line = [0u8; 12000];
    for _ in 0..1000000 {
        let Some(n) = case_support::read_line(&mut input, &mut line)? else {
            return Ok(());
        };
        run_line(&rt, part(&line, 0, n))?;
    }
    Ok(())
}
