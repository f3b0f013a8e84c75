// Runs cases of addresses, domain names and answer tables, a line each, and prints a line for each answer. Bytes stand in hex, `-` for none.
//
//     address CLIENT NETWORK LENGTH     1 if they match at that prefix length, else 0
//     client ADDRESS                    the address that the client counts as
//     name TEXT                         the name without one trailing dot and in lower case, or `malformed`
//     table-name TEXT                   1 if it may stand in the table as it is, else 0
//     labels TEXT                       the number of labels
//     below NAME TARGET                 1 if the name is the target or below it, else 0
//     shorten TEXT                      what is left once labels have left from the left
//     table TABLE                       `entries` and their number, or `refused`, number and place
//     find KIND NAME TABLE              `missing`, or the status, the lifetime and the items
//     mx NAME TABLE                     the preference and host of each MX item
//     append KIND STATUS NAME ITEMS BUFFER SIZE LIFETIME
//                                       `appended`, the new length and the bytes from the old length on; or `refused`, number and place (`.` for none);
//                                       and last `kept` or `changed`, of the other bytes. No LIFETIME is one of 0
//
// Any other line is printed as it is.
#![tactic(auto)]

use answer_entry::{AppendError, NewEntry};
use answer_table::TableError;
use answer_table::items::{Items, host, preference};
use case_support::{
    number_of, print_bytes, print_line, print_number_line, print_test, unhexed, word,
};
use std::io;
use text::bytes::part;
use text::decimal;

fn run_address(rt: &impl Print, line: &[u8]) -> io::Result<()> {
    let mut a = [0u8; 16];
    let mut b = [0u8; 16];
    let Some(client) = address::from_octets(unhexed(word(line, 1), &mut a)) else {
        return print_line(rt, b"no address");
    };
    let Some(network) = address::from_octets(unhexed(word(line, 2), &mut b)) else {
        return print_line(rt, b"no address");
    };
    let Some(length) = decimal::read_decimal(word(line, 3), u64::MAX) else {
        return print_line(rt, b"no length");
    };
    print_test(rt, address::matches(client, network, length as usize))
}

fn run_client(rt: &impl Print, line: &[u8]) -> io::Result<()> {
    let mut a = [0u8; 16];
    let Some(given) = address::from_octets(unhexed(word(line, 1), &mut a)) else {
        return print_line(rt, b"no address");
    };
    case_support::print_address(rt, address::as_client(given))
}

fn run_name(rt: &impl Print, line: &[u8]) -> io::Result<()> {
    let mut text = [0u8; 1024];
    let mut out = [0u8; 253];
    let Some(n) = domain::read_name(unhexed(word(line, 1), &mut text), &mut out) else {
        return print_line(rt, b"malformed");
    };
    print_line(rt, part(&out, 0, n))
}

fn run_table_name(rt: &impl Print, line: &[u8]) -> io::Result<()> {
    let mut text = [0u8; 1024];
    print_test(rt, domain::is_table_name(unhexed(word(line, 1), &mut text)))
}

fn run_labels(rt: &impl Print, line: &[u8]) -> io::Result<()> {
    let mut text = [0u8; 1024];
    print_number_line(rt, domain::count_labels(unhexed(word(line, 1), &mut text)))
}

fn run_below(rt: &impl Print, line: &[u8]) -> io::Result<()> {
    let mut name = [0u8; 1024];
    let mut target = [0u8; 1024];
    let name = unhexed(word(line, 1), &mut name);
    let target = unhexed(word(line, 2), &mut target);
    print_test(rt, domain::at_or_below(name, target))
}

fn run_shorten(rt: &impl Print, line: &[u8]) -> io::Result<()> {
    let mut text = [0u8; 4096];
    print_line(rt, domain::shorten(unhexed(word(line, 1), &mut text)))
}

// Prints why a table is refused: number and place.
fn print_refused(rt: &impl Print, error: TableError) -> io::Result<()> {
    match error {
        TableError::TooLong => rt.write_all(b"refused 24 ."),
        TableError::Malformed(place) => print!(rt; "refused 25 {place}"),
        TableError::Repeated(place) => print!(rt; "refused 26 {place}"),
    }
}

fn run_table(rt: &impl Print, line: &[u8]) -> io::Result<()> {
    let mut space = [0u8; 65552];
    match answer_table::check_table(unhexed(word(line, 1), &mut space)) {
        Ok(count) => print!(rt; "entries {count}")?,
        Err(error) => print_refused(rt, error)?,
    }
    print_line(rt, b"")
}

fn run_find(rt: &impl Print, line: &[u8]) -> io::Result<()> {
    let mut name = [0u8; 253];
    let mut space = [0u8; 65552];
    let Some(kind) = decimal::read_decimal(word(line, 1), 65535) else {
        return print_line(rt, b"no kind");
    };
    let name = unhexed(word(line, 2), &mut name);
    let table = unhexed(word(line, 3), &mut space);
    let found = answer_table::find(table, (kind % 65536) as u16, name);
    let Some(entry) = found else {
        return print_line(rt, b"missing");
    };
    let status = entry.status;
    let lifetime = entry.lifetime;
    print!(rt; "{status} {lifetime}")?;
    for item in Items::new(answer_table::found_items(table, found)) {
        rt.write_all(b" ")?;
        print_bytes(rt, item)?;
    }
    print_line(rt, b"")
}

fn run_mx(rt: &impl Print, line: &[u8]) -> io::Result<()> {
    let mut name = [0u8; 253];
    let mut space = [0u8; 65552];
    let name = unhexed(word(line, 1), &mut name);
    let table = unhexed(word(line, 2), &mut space);
    let found = answer_table::find(table, 15, name);
    for item in Items::new(answer_table::found_items(table, found)) {
        rt.print(preference(item))?;
        rt.write_all(b" ")?;
        print_bytes(rt, host(item))?;
        rt.write_all(b" ")?;
    }
    print_line(rt, b"")
}

// Prints whether the first n bytes of a buffer are as they were.
fn print_kept(rt: &impl Print, before: &[u8], after: &[u8], n: usize) -> io::Result<()> {
    let kept = part(before, 0, n) == part(after, 0, n);
    print_line(rt, if kept { b" kept" } else { b" changed" })
}

// Prints what an append answers, with the buffer before and after.
fn print_append(
    rt: &impl Print,
    answer: Result<usize, AppendError>,
    before: &[u8],
    after: &[u8],
    size: usize,
) -> io::Result<()> {
    match answer {
        Ok(end) => {
            print!(rt; "appended {end} ")?;
            print_bytes(rt, part(after, size, after.len()))?;
            return print_kept(rt, before, after, size);
        }
        Err(AppendError::Table(error)) => print_refused(rt, error)?,
        Err(AppendError::InTable) => rt.write_all(b"refused 64 .")?,
        Err(AppendError::Unfit) => rt.write_all(b"refused 65 .")?,
    }
    print_kept(rt, before, after, before.len())
}

// Appends to a buffer, of which another is a copy.
fn run_append_to(rt: &impl Print, line: &[u8], before: &[u8], after: &mut [u8]) -> io::Result<()> {
    let mut name = [0u8; 1024];
    let mut items = [0u8; 65552];
    let size = number_of(word(line, 6)) as usize;
    let entry = NewEntry {
        kind: (number_of(word(line, 1)) % 65536) as u16,
        status: (number_of(word(line, 2)) % 256) as u8,
        lifetime: (number_of(word(line, 7)) % 4294967296) as u32,
        name: unhexed(word(line, 3), &mut name),
        items: unhexed(word(line, 4), &mut items),
    };
    let answer = answer_entry::append_entry(&entry, after, size);
    print_append(rt, answer, before, after, size)
}

fn run_append(rt: &impl Print, line: &[u8]) -> io::Result<()> {
    let mut before = [0u8; 65552];
    let mut after = [0u8; 65552];
    let n = case_support::unhex(word(line, 5), &mut after);
    run_append_to(
        rt,
        line,
        unhexed(word(line, 5), &mut before),
        &mut after[..n],
    )
}

fn run_line(rt: &impl Print, line: &[u8]) -> io::Result<()> {
    match word(line, 0) {
        b"address" => run_address(rt, line),
        b"client" => run_client(rt, line),
        b"name" => run_name(rt, line),
        b"table-name" => run_table_name(rt, line),
        b"labels" => run_labels(rt, line),
        b"below" => run_below(rt, line),
        b"shorten" => run_shorten(rt, line),
        b"table" => run_table(rt, line),
        b"find" => run_find(rt, line),
        b"mx" => run_mx(rt, line),
        b"append" => run_append(rt, line),
        _ => print_line(rt, line),
    }
}

// At most as many lines as the budget says.
fn main(rt: HostRuntime) -> io::Result<()> {
    let mut input = rt.reader();
    let mut line = [0u8; 140000];
    for _ in 0..1000000 {
        let Some(n) = case_support::read_line(&mut input, &mut line)? else {
            break;
        };
        run_line(&rt, part(&line, 0, n))?;
    }
    Ok(())
}
