// The relay: it begins with an empty table, fetches each answer that is missing from the zone, and asks again until the check is decided; for a fail it
// then asks for the explanation in the same way.
use address::Address;
use answer_entry::{NewEntry, append_entry};
use evaluation::explaining::{Explanation, explain};
use evaluation::{Answer, Refusal, evaluate};
use std::io;
use text::bytes::part;

// A case's arguments.
#[derive(Clone, Copy)]
pub struct Case<'a> {
    pub client: Address,
    pub domain: &'a [u8],
    pub sender: &'a [u8],
    pub helo: &'a [u8],
}

// The suite names no lifetimes: every answer has this one. The program prints none.
const LIFETIME: u32 = 300;

// Appends the zone's answer to a question to a table; answers the table's new size. A name that the zone lacks doesn't exist, which is status 3. An entry that
// is refused leaves the table, and the check undecided.
fn append_answer(zone: &[u8], kind: u16, name: &[u8], table: &mut [u8], size: usize) -> usize {
    let found = answer_table::find(zone, kind, name);
    let entry = NewEntry {
        kind,
        status: match found {
            Some(entry) => entry.status,
            None => 3,
        },
        lifetime: LIFETIME,
        name,
        items: answer_table::found_items(zone, found),
    };
    append_entry(&entry, table, size).unwrap_or(size)
}

fn print(rt: &impl Print, s: &[u8]) -> io::Result<()> {
    rt.write_all(s)
}

fn print_result(rt: &impl Print, value: u8) -> io::Result<()> {
    match value {
        0 => print(rt, b"none"),
        1 => print(rt, b"neutral"),
        2 => print(rt, b"pass"),
        3 => print(rt, b"fail"),
        4 => print(rt, b"softfail"),
        5 => print(rt, b"temperror"),
        _ => print(rt, b"permerror"),
    }
}

// Prints a result and its text, if there is one.
fn print_decided(rt: &impl Print, value: u8, text: &[u8]) -> io::Result<()> {
    print_result(rt, value)?;
    if 0 < text.len() {
        print(rt, b" ")?;
    }
    case_support::print_line(rt, text)
}

fn print_refused(rt: &impl Print, refusal: Refusal) -> io::Result<()> {
    print(rt, b"refused ")?;
    case_support::print_number_line(rt, refusal.number() as usize)
}

// Asks for the text of a fail over the table that decided it, adds the zone's answer to each question that is missing, and prints the fail and its text.
// 12 questions are all that an explanation puts: eleven for the p macro and one for the text.
fn explain_fail(
    rt: &impl Print,
    zone: &[u8],
    case: Case,
    place: usize,
    length: usize,
    table: &mut [u8],
    decided: usize,
) -> io::Result<()> {
    let mut name = [0u8; 253];
    let mut text = [0u8; 500];
    let mut size = decided;
    for _ in 0..13 {
        match explain(
            case.client,
            case.domain,
            case.sender,
            case.helo,
            b"",
            0,
            part(table, 0, size),
            place,
            length,
            &mut name,
            &mut text,
        ) {
            Ok(Explanation::Text(n)) => return print_decided(rt, 3, part(&text, 0, n)),
            Ok(Explanation::Wanting(question)) => {
                let asked = part(&name, 0, question.length);
                size = append_answer(zone, question.kind, asked, table, size);
            }
            Err(refusal) => return print_refused(rt, refusal),
        }
    }
    case_support::print_line(rt, b"undecided")
}

// A check over the answers in the front of a table.
fn check(case: Case, table: &[u8], size: usize, name: &mut [u8]) -> Result<Answer, Refusal> {
    evaluate(
        case.client,
        case.domain,
        case.sender,
        case.helo,
        b"",
        0,
        part(table, 0, size),
        name,
    )
}

// Fills an empty table with the zone's answer to each question that the check wants; answers the table's size. 130 questions are more than any check of
// the suite puts.
fn collect_answers(zone: &[u8], case: Case, table: &mut [u8]) -> usize {
    let mut name = [0u8; 253];
    let mut size: usize = 0;
    for _ in 0..130 {
        let Ok(Answer::Wanting { question, .. }) = check(case, table, size, &mut name) else {
            break;
        };
        let asked = part(&name, 0, question.length);
        size = append_answer(zone, question.kind, asked, table, size);
    }
    size
}

// Checks over the answers that the zone has for it, and prints what the check comes to.
pub fn run(rt: &impl Print, zone: &[u8], case: Case) -> io::Result<()> {
    let mut table = [0u8; 8192];
    let mut name = [0u8; 253];
    let size = collect_answers(zone, case, &mut table);
    match check(case, &table, size, &mut name) {
        Ok(Answer::Decided { value, .. }) => print_decided(rt, value, b""),
        Ok(
            Answer::Fail {
                domain: n,
                place,
                length,
                ..
            },
        ) => {
            let failing = Case {
                domain: part(&name, 0, n),
                ..case
            };
            explain_fail(rt, zone, failing, place, length, &mut table, size)
        }
        Ok(Answer::Wanting { .. }) => case_support::print_line(rt, b"undecided"),
        Err(refusal) => print_refused(rt, refusal),
    }
}
