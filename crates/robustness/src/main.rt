// Calls the library on generated and damaged records, tables and arguments, and prints how often each answer was given and a digest of all answers.
//
// It shows that every call returns, that a call keeps every byte that it does not write, and that an evaluation's lifetime is 0 or that of an entry. The
// stored output is the program's own: it says nothing of whether an answer is right, and guards against a change of behaviour that was not meant. Numbers
// come from a fixed seed, so each run is the same.
#![tactic(auto)]

mod checks;
mod explanations;
mod readings;
mod turns;

use robustness_inputs::{arguments, random, tally, texts};
use std::io;
use std::ops::Range;
use text::writing::Writer;
use turns::Mail;

// One round: arguments are made, and then the calls on a record and the evaluations with them.
fn run_round(seed: u64, table: &mut [u8], counts: &mut [u64], digest: u64) -> u64 {
    let mut domain = [0u8; 512];
    let mut sender = [0u8; 512];
    let mut helo = [0u8; 512];
    let mut receiver = [0u8; 512];
    let mut domain = Writer::new(&mut domain);
    let mut sender = Writer::new(&mut sender);
    let mut helo = Writer::new(&mut helo);
    let mut receiver = Writer::new(&mut receiver);
    arguments::put_domain(random::draw(seed, 1), &mut domain);
    arguments::put_sender(random::draw(seed, 2), &mut sender);
    arguments::put_helo(random::draw(seed, 3), &mut helo);
    arguments::put_receiver(random::draw(seed, 4), &mut receiver);
    let mail = Mail {
        client: arguments::pick_client(random::draw(seed, 6)),
        domain: texts::written(&domain),
        sender: texts::written(&sender),
        helo: texts::written(&helo),
        receiver: texts::written(&receiver),
    };
    let drawn = random::draw(seed, 5);
    let read = readings::run(random::draw(drawn, 1), mail, counts, digest);
    checks::run(random::draw(drawn, 2), mail, table, counts, read)
}

// Prints a count.
fn print_place(rt: &impl Print, counts: &[u64], at: usize) -> io::Result<()> {
    rt.write_all(b" ")?;
    if at < counts.len() {
        rt.print(counts[at])?;
    }
    rt.write_all(b"\n")
}

// Prints a count with its words.
fn print_count(rt: &impl Print, words: &[u8], counts: &[u64], at: u8) -> io::Result<()> {
    rt.write_all(words)?;
    print_place(rt, counts, at as usize)
}

// Prints the count of an answer's number, with the call's name.
fn print_number(
    rt: &impl Print,
    call: &[u8],
    number: u8,
    counts: &[u64],
    start: u8,
) -> io::Result<()> {
    rt.write_all(call)?;
    rt.write_all(b" ")?;
    rt.print(number)?;
    print_place(rt, counts, start as usize + number as usize)
}

// Prints the counts of a call's answers with the numbers of a range.
fn print_numbers(
    rt: &impl Print,
    call: &[u8],
    numbers: Range<u8>,
    counts: &[u64],
    start: u8,
) -> io::Result<()> {
    for n in numbers {
        print_number(rt, call, n, counts, start)?;
    }
    Ok(())
}

fn print_counts(rt: &impl Print, counts: &[u64]) -> io::Result<()> {
    print_numbers(rt, b"evaluate", 0..8, counts, tally::EVALUATE)?;
    print_numbers(rt, b"evaluate", 20..27, counts, tally::EVALUATE)?;
    print_count(rt, b"permerrors after 10 lookups", counts, tally::TENTHS)?;
    print_count(rt, b"permerrors after 3 voids", counts, tally::VOIDS)?;
    print_count(rt, b"lifetimes of 0", counts, tally::ZEROS)?;
    print_count(rt, b"lifetimes of an entry", counts, tally::LIVES)?;
    print_count(rt, b"lifetimes of no entry", counts, tally::STRAYS)?;
    print_number(rt, b"explain", 3, counts, tally::EXPLAIN)?;
    print_number(rt, b"explain", 7, counts, tally::EXPLAIN)?;
    print_numbers(rt, b"explain", 20..27, counts, tally::EXPLAIN)?;
    print_number(rt, b"explain", 28, counts, tally::EXPLAIN)?;
    print_count(rt, b"explanations with a text", counts, tally::TEXTS)?;
    print_count(rt, b"read_record accepted", counts, tally::RECORD)?;
    print_numbers(rt, b"read_record", 30..34, counts, tally::RECORD)?;
    print_count(rt, b"read_term a term", counts, tally::TERM)?;
    print_count(rt, b"read_term the end", counts, tally::ENDS)?;
    print_number(rt, b"read_term", 30, counts, tally::TERM)?;
    print_number(rt, b"read_term", 32, counts, tally::TERM)?;
    print_number(rt, b"read_term", 34, counts, tally::TERM)?;
    print_count(rt, b"expand written", counts, tally::EXPAND)?;
    print_numbers(rt, b"expand", 20..23, counts, tally::EXPAND)?;
    print_numbers(rt, b"expand", 40..42, counts, tally::EXPAND)?;
    print_count(rt, b"buffers kept", counts, tally::KEPT)?;
    print_count(rt, b"buffers changed", counts, tally::CHANGED)
}

// Runs the rounds; answers the digest.
fn run_rounds(table: &mut [u8], counts: &mut [u64]) -> u64 {
    let mut digest = tally::START;
    for round in 0..20000u64 {
        digest = run_round(random::draw(7208, 20000 - round), table, counts, digest);
    }
    digest
}

fn print_digest(rt: &impl Print, digest: u64) -> io::Result<()> {
    rt.write_all(b"digest ")?;
    print!(rt; "{digest:016x}")?;
    rt.write_all(b"\n")
}

// The table's space is one byte more than a table may have.
fn main(rt: HostRuntime) -> io::Result<()> {
    let mut table = [0u8; 65536];
    let mut counts = [0u64; 256];
    let digest = run_rounds(&mut table, &mut counts);
    rt.write_all(b"rounds 20000\n")?;
    print_counts(&rt, &counts)?;
    print_digest(&rt, digest)
}
