// The calls on a record: it is read, its terms are read one after another, one is read from anywhere, and their arguments are expanded.
use crate::turns::Mail;
use address::Address;
use macros::{Form, Given};
use records::{ReadTerm, Refusal, Term};
use robustness_inputs::{arguments, random, tally, terms, texts};
use std::ops::Range;
use text::bytes::part;
use text::writing::Writer;

// Counts a refusal of a call and folds its number and place.
fn note_refusal(refusal: Refusal, call: u8, counts: &mut [u64], digest: u64) -> u64 {
    let number = refusal.reason.number();
    tally::count(counts, call, number);
    tally::fold_number(tally::fold_number(digest, number as usize), refusal.at)
}

fn note_record(answer: Result<usize, Refusal>, counts: &mut [u64], digest: u64) -> u64 {
    match answer {
        Ok(next) => {
            tally::count(counts, tally::RECORD, 0);
            tally::fold_number(digest, next)
        }
        Err(refusal) => note_refusal(refusal, tally::RECORD, counts, digest),
    }
}

fn fold_address(digest: u64, address: Address) -> u64 {
    match address {
        Address::IPv4(v) => tally::fold_bytes(digest, &address::octets4(v)),
        Address::IPv6(high, low) => tally::fold_bytes(digest, &address::octets16(high, low)),
    }
}

// A digest with the parts of a term more.
fn fold_parts(digest: u64, kind: u8, sign: u8, argument: Range<usize>, four: u8, six: u8) -> u64 {
    let signed = tally::fold_number(digest, 256 * kind as usize + sign as usize);
    let placed = tally::fold_number(tally::fold_number(signed, argument.start), argument.end);
    tally::fold_number(placed, 256 * four as usize + six as usize)
}

fn fold_term(digest: u64, term: Term) -> u64 {
    match term {
        Term::All { sign } => fold_parts(digest, 1, sign, 0..0, 0, 0),
        Term::Include { sign, from, to } => fold_parts(digest, 2, sign, from..to, 0, 0),
        Term::A {
            sign,
            from,
            to,
            four,
            six,
        } => fold_parts(digest, 3, sign, from..to, four, six),
        Term::Mx {
            sign,
            from,
            to,
            four,
            six,
        } => fold_parts(digest, 4, sign, from..to, four, six),
        Term::Ptr { sign, from, to } => fold_parts(digest, 5, sign, from..to, 0, 0),
        Term::Network {
            sign,
            from,
            to,
            address,
            length,
        } => fold_parts(fold_address(digest, address), 6, sign, from..to, length, 0),
        Term::Exists { sign, from, to } => fold_parts(digest, 7, sign, from..to, 0, 0),
        Term::Redirect { from, to } => fold_parts(digest, 8, 0, from..to, 0, 0),
        Term::Explanation { from, to } => fold_parts(digest, 9, 0, from..to, 0, 0),
        Term::Unknown { name, to } => fold_parts(digest, 10, 0, name..to, 0, 0),
    }
}

fn note_term(answer: Result<Option<ReadTerm>, Refusal>, counts: &mut [u64], digest: u64) -> u64 {
    match answer {
        Ok(Some(ReadTerm { at, next, term })) => {
            tally::count(counts, tally::TERM, 0);
            fold_term(
                tally::fold_number(tally::fold_number(digest, at), next),
                term,
            )
        }
        Ok(None) => {
            tally::count(counts, tally::ENDS, 0);
            tally::fold_number(digest, 0)
        }
        Err(refusal) => note_refusal(refusal, tally::TERM, counts, digest),
    }
}

fn note_expanded(answer: Result<usize, u8>, out: &[u8], counts: &mut [u64], digest: u64) -> u64 {
    match answer {
        Ok(n) => {
            tally::count(counts, tally::EXPAND, 0);
            tally::count_kept(out, n, b"", 0, counts);
            tally::fold_bytes(digest, part(out, 0, n))
        }
        Err(number) => {
            tally::count(counts, tally::EXPAND, number);
            tally::count_kept(out, 0, b"", 0, counts);
            tally::fold_number(digest, number as usize)
        }
    }
}

fn pick_form(seed: u64) -> Form {
    match random::up_to(seed, 4, 2) {
        0 => Form::DomainSpec,
        1 => Form::ModifierValue,
        _ => Form::Explanation,
    }
}

// The length of the buffer for an expansion.
fn pick_room(seed: u64) -> usize {
    if random::chance(seed, 5, 200) {
        random::up_to(seed, 6, 40)
    } else {
        700
    }
}

// An expansion into the front of a buffer; 0 if the buffer is shorter than that.
fn expand_front(seed: u64, s: &[u8], given: &Given, out: &mut [u8]) -> Result<usize, u8> {
    let room = pick_room(seed);
    if out.len() < room {
        return Err(0);
    }
    macros::expand(pick_form(seed), s, given, &mut out[..room]).map_err(|e| e.number())
}

// Expands a text.
fn run_expansion(seed: u64, s: &[u8], mail: Mail, counts: &mut [u64], digest: u64) -> u64 {
    let mut p = [0u8; 512];
    let mut out = [0u8; 700];
    let mut p = Writer::new(&mut p);
    arguments::put_p(random::draw(seed, 1), &mut p);
    case_support::fill(&mut out);
    let drawn = random::draw(seed, 2);
    let given = Given {
        sender: mail.sender,
        helo: mail.helo,
        receiver: mail.receiver,
        domain: mail.domain,
        p: texts::written(&p),
        client: mail.client,
        seconds: arguments::pick_seconds(drawn),
    };
    let answer = expand_front(drawn, s, &given, &mut out);
    note_expanded(answer, &out, counts, digest)
}

// Reads the terms one after another, and expands the argument of each.
fn run_terms(seed: u64, s: &[u8], mail: Mail, counts: &mut [u64], digest: u64) -> u64 {
    let mut folded = digest;
    let mut place: usize = 0;
    for turn in 0..4097u64 {
        let answer = records::read_term(s, place);
        folded = note_term(answer, counts, folded);
        let Ok(Some(ReadTerm { at, next, term })) = answer else {
            break;
        };
        let argument = records::argument(s, at, next, term);
        folded = run_expansion(
            random::draw(seed, 4097 - turn),
            argument,
            mail,
            counts,
            folded,
        );
        place = next;
    }
    folded
}

// Expands a text for an explanation.
fn run_explanation(seed: u64, mail: Mail, counts: &mut [u64], digest: u64) -> u64 {
    let mut text = [0u8; 1024];
    let mut text = Writer::new(&mut text);
    texts::put_explanation(random::draw(seed, 1), &mut text);
    run_expansion(
        random::draw(seed, 2),
        texts::written(&text),
        mail,
        counts,
        digest,
    )
}

// Makes a record and reads it, all of it and from anywhere.
pub fn run(seed: u64, mail: Mail, counts: &mut [u64], digest: u64) -> u64 {
    let mut record = [0u8; 8192];
    let mut record = Writer::new(&mut record);
    terms::put_long_record(random::draw(seed, 1), &mut record);
    texts::damage(random::draw(seed, 2), 250, 0, &mut record);
    let s = texts::written(&record);
    let whole = note_record(records::read_record(s), counts, digest);
    let read = records::read_term(s, random::up_to(seed, 3, 150));
    let one = note_term(read, counts, whole);
    let all = run_terms(random::draw(seed, 4), s, mail, counts, one);
    run_explanation(random::draw(seed, 5), mail, counts, all)
}
