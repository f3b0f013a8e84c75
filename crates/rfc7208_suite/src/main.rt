// Runs the cases of the RFC 7208 test suite, and prints a line for each: its name, the result, and for a fail with a text the text. Bytes stand in hex, `-`
// for none.
//
//     zone                              the zone is empty
//     entry NAME TYPE ENTRY             the zone has one more entry, as it stands in an answer table; NAME and TYPE are there for people
//     case NAME CLIENT DOMAIN SENDER HELO
//                                       a case, run over the zone; CLIENT is the address's octets
//
// Any other line is printed as it is.
#![tactic(auto)]

mod relay;

use relay::Case;
use std::io;
use text::bytes::part;
use text::writing::Writer;

// Adds an entry to a zone of a size; answers the new size.
fn add_entry(line: &[u8], zone: &mut [u8], size: usize) -> usize {
    let mut entry = [0u8; 512];
    let mut w = Writer {
        out: zone,
        at: size,
    };
    w.put_all(case_support::unhexed(case_support::word(line, 3), &mut entry));
    w.at
}

fn run_case(rt: &impl Print, line: &[u8], zone: &[u8]) -> io::Result<()> {
    let mut domain = [0u8; 512];
    let mut sender = [0u8; 512];
    let mut helo = [0u8; 512];
    let case = Case {
        client: case_support::address_of(case_support::word(line, 2)),
        domain: case_support::unhexed(case_support::word(line, 3), &mut domain),
        sender: case_support::unhexed(case_support::word(line, 4), &mut sender),
        helo: case_support::unhexed(case_support::word(line, 5), &mut helo),
    };
    rt.write_all(case_support::word(line, 1))?;
    rt.write_all(b" ")?;
    relay::run(rt, zone, case)
}

// Runs a line over a zone of a size; answers the zone's new size.
fn run_line(rt: &impl Print, line: &[u8], zone: &mut [u8], size: usize) -> io::Result<usize> {
    match case_support::word(line, 0) {
        b"zone" => return Ok(0),
        b"entry" => return Ok(add_entry(line, zone, size)),
        b"case" => run_case(rt, line, part(zone, 0, size))?,
        _ => case_support::print_line(rt, line)?,
    }
    Ok(size)
}

// At most as many lines as the budget says.
fn main(rt: HostRuntime) -> io::Result<()> {
    let mut input = rt.reader();
    let mut line = [0u8; 1024];
    let mut zone = [0u8; 12288];
    let mut size: usize = 0;
    for _ in 0..1000000 {
        let Some(n) = case_support::read_line(&mut input, &mut line)? else {
            break;
        };
        size = run_line(&rt, part(&line, 0, n), &mut zone, size)?;
    }
    Ok(())
}
