// Runs cases of records and terms, a line each, and prints the answers. Bytes stand in hex, `-` for none.
//
//     record RECORD                     `accepted` and the place after the version, or `refused`, number, `at`, place
//     term RECORD PLACE                 `end`; `refused`, number, `at`, place; or `term`, place, next place, name, sign, argument, IPv4 length,
//                                       IPv6 length and address, `.` where absent
//     print RECORD                      the record printed: a header and a line for each term
//     text RECORD                       the same, the rest of the line being the record as it is
//     address TEXT                      the address that a text writes, or `none`
//
// Any other line is printed as it is.
#![tactic(auto)]

use address::Address;
use records::{ReadTerm, Refusal, Term};
use std::io;
use text::bytes::part;
use text::decimal;
use text::writing::Writer;

fn run_record(rt: &impl Print, line: &[u8]) -> io::Result<()> {
    let mut s = [0u8; 8192];
    let n = case_support::unhex(case_support::word(line, 1), &mut s);
    let mut out = [0u8; 64];
    let size = record_listing::put_reading(part(&s, 0, n), &mut out);
    rt.write_all(part(&out, 0, size))
}

// A term but for its places. What the term lacks is `None`.
#[derive(Clone, Copy)]
struct Columns<'a> {
    name: &'a [u8],
    sign: Option<u8>,
    argument: Option<&'a [u8]>,
    four: Option<u8>,
    six: Option<u8>,
    address: Option<Address>,
}

// Prints a prefix length with a space before it.
fn print_length(rt: &impl Print, length: Option<u8>) -> io::Result<()> {
    let mut out = [0u8; 8];
    let mut w = Writer::new(&mut out);
    record_listing::put_length(length, &mut w);
    let size = w.at;
    rt.write_all(part(&out, 0, size))
}

// Prints a byte string in hex with a space before it.
fn print_spaced(rt: &impl Print, s: &[u8]) -> io::Result<()> {
    rt.write_all(b" ")?;
    case_support::print_bytes(rt, s)
}

// The same of one that may be absent.
fn print_optional(rt: &impl Print, s: Option<&[u8]>) -> io::Result<()> {
    match s {
        Some(bytes) => print_spaced(rt, bytes),
        None => rt.write_all(b" ."),
    }
}

// Prints a sign with a space before it.
fn print_sign(rt: &impl Print, sign: Option<u8>) -> io::Result<()> {
    match sign {
        Some(b) => print_spaced(rt, &[b]),
        None => rt.write_all(b" ."),
    }
}

// Prints an address's octets with a space before them.
fn print_octets(rt: &impl Print, address: Option<Address>) -> io::Result<()> {
    match address {
        Some(Address::IPv4(v)) => print_spaced(rt, &address::octets4(v)),
        Some(Address::IPv6(high, low)) => print_spaced(rt, &address::octets16(high, low)),
        None => rt.write_all(b" ."),
    }
}

fn print_columns(rt: &impl Print, columns: Columns) -> io::Result<()> {
    print_spaced(rt, columns.name)?;
    print_sign(rt, columns.sign)?;
    print_optional(rt, columns.argument)?;
    print_length(rt, columns.four)?;
    print_length(rt, columns.six)?;
    print_octets(rt, columns.address)
}

// The columns of a term that was read in a text.
fn said_columns<'a>(s: &'a [u8], read: ReadTerm) -> Columns<'a> {
    let ReadTerm { at, next, term } = read;
    let argument = records::argument(s, at, next, term);
    let said = Columns {
        name: b"",
        sign: term.sign(),
        argument: Some(argument),
        four: None,
        six: None,
        address: None,
    };
    let optional = (argument.len() != 0).then_some(argument);
    match term {
        Term::All { .. } => Columns {
            name: b"all",
            argument: optional,
            ..said
        },
        Term::Include { .. } => Columns {
            name: b"include",
            argument: optional,
            ..said
        },
        Term::A { four, six, .. } => Columns {
            name: b"a",
            argument: optional,
            four: Some(four),
            six: Some(six),
            ..said
        },
        Term::Mx { four, six, .. } => Columns {
            name: b"mx",
            argument: optional,
            four: Some(four),
            six: Some(six),
            ..said
        },
        Term::Ptr { .. } => Columns {
            name: b"ptr",
            argument: optional,
            ..said
        },
        Term::Network {
            address,
            length,
            ..
        } => match address {
            Address::IPv4(_) => Columns {
                name: b"ip4",
                four: Some(length),
                address: Some(address),
                ..said
            },
            Address::IPv6(_, _) => Columns {
                name: b"ip6",
                six: Some(length),
                address: Some(address),
                ..said
            },
        },
        Term::Exists { .. } => Columns {
            name: b"exists",
            argument: optional,
            ..said
        },
        Term::Redirect { .. } => Columns {
            name: b"redirect",
            ..said
        },
        Term::Explanation { .. } => Columns {
            name: b"exp",
            ..said
        },
        Term::Unknown { name, .. } => Columns {
            name: part(part(s, at, next), 0, name),
            ..said
        },
    }
}

// Prints the end or a refusal.
fn print_no_term(
    rt: &impl Print,
    s: &[u8],
    answer: Result<Option<ReadTerm>, Refusal>,
) -> io::Result<()> {
    let mut out = [0u8; 64];
    let size = record_listing::put_term_answer(s, answer, &mut out);
    rt.write_all(part(&out, 0, size))
}

fn print_term_answer(
    rt: &impl Print,
    s: &[u8],
    answer: Result<Option<ReadTerm>, Refusal>,
) -> io::Result<()> {
    let Ok(Some(read)) = answer else {
        return print_no_term(rt, s, answer);
    };
    rt.write_all(b"term ")?;
    rt.print(read.at)?;
    rt.write_all(b" ")?;
    rt.print(read.next)?;
    print_columns(rt, said_columns(s, read))?;
    case_support::print_line(rt, b"")
}

fn run_term(rt: &impl Print, line: &[u8]) -> io::Result<()> {
    let mut s = [0u8; 8192];
    let n = case_support::unhex(case_support::word(line, 1), &mut s);
    let Some(at) = decimal::read_decimal(case_support::word(line, 2), 18446744073709551615) else {
        return case_support::print_line(rt, b"no place");
    };
    let text = part(&s, 0, n);
    print_term_answer(rt, text, records::read_term(text, at as usize))
}

// Prints a record.
fn print_record(rt: &impl Print, record: &[u8]) -> io::Result<()> {
    let mut out = record_listing::buffer();
    let size = record_listing::list_record(record, &mut out);
    rt.write_all(part(&out, 0, size))
}

fn run_print(rt: &impl Print, line: &[u8]) -> io::Result<()> {
    let mut s = [0u8; 8192];
    let n = case_support::unhex(case_support::word(line, 1), &mut s);
    print_record(rt, part(&s, 0, n))
}

fn run_address(rt: &impl Print, line: &[u8]) -> io::Result<()> {
    let mut s = [0u8; 8192];
    let n = case_support::unhex(case_support::word(line, 1), &mut s);
    let Some(a) = networks::read_address(part(&s, 0, n)) else {
        return case_support::print_line(rt, b"none");
    };
    case_support::print_address(rt, a)
}

fn run_line(rt: &impl Print, line: &[u8]) -> io::Result<()> {
    match case_support::word(line, 0) {
        b"record" => run_record(rt, line),
        b"term" => run_term(rt, line),
        b"print" => run_print(rt, line),
        b"text" => print_record(rt, part(line, 5, line.len())),
        b"address" => run_address(rt, line),
        _ => case_support::print_line(rt, line),
    }
}

// At most as many lines as the budget says.
fn main(rt: HostRuntime) -> io::Result<()> {
    let mut input = rt.reader();
    let mut line = [0u8; 32768];
    for _ in 0..1000000 {
        let Some(n) = case_support::read_line(&mut input, &mut line)? else {
            return Ok(());
        };
        run_line(&rt, part(&line, 0, n))?;
    }
    Ok(())
}
