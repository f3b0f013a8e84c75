// The evaluations: over a table that is made, then over the same with an entry for each question that was wanted, damaged now and then; and after the last
// one the explanations.
use crate::explanations;
use crate::turns::{Mail, Turn};
use answer_table::{Layout, MOST_ENTRIES, entries};
use evaluation::{Answer, Refusal, evaluate};
use robustness_inputs::{arguments, random, tables, tally, texts};
use text::bytes::part;
use text::writing::Writer;

// An evaluation that is lent the front of a buffer; the seed says how much of it, and the time. None if the buffer is shorter than that.
fn evaluate_front(
    seed: u64,
    mail: Mail,
    table: &[u8],
    name: &mut [u8],
) -> Result<Answer, Option<Refusal>> {
    let name_room = arguments::name_room(seed);
    if name.len() < name_room {
        return Err(None);
    }
    evaluate(
        mail.client,
        mail.domain,
        mail.sender,
        mail.helo,
        mail.receiver,
        arguments::pick_seconds(seed),
        table,
        &mut name[..name_room],
    )
    .map_err(Some)
}

// Where a result is counted besides its number.
fn place_of(value: u8, lookups: u8, voids: u8) -> u8 {
    match (value, lookups, voids) {
        (6, _, 3) => tally::VOIDS,
        (6, 10, _) => tally::TENTHS,
        _ => tally::OTHERS,
    }
}

// Folds a refusal's number and its place, which is 0 for a call that wasn't made.
pub fn fold_refusal(refusal: Option<Refusal>, digest: u64) -> u64 {
    let Some(refusal) = refusal else {
        return tally::fold_number(digest, 0);
    };
    let numbered = tally::fold_number(digest, refusal.number() as usize);
    match refusal.place() {
        Some(at) => tally::fold_number(numbered, at),
        None => numbered,
    }
}

// A refusal's number; 0 for a call that wasn't made.
pub fn number_of(refusal: Option<Refusal>) -> u8 {
    match refusal {
        Some(refusal) => refusal.number(),
        None => 0,
    }
}

// Whether some entry of an accepted table has a lifetime.
fn has_lifetime(table: &[u8], lifetime: u32) -> bool {
    let mut at: usize = 0;
    for _ in 0..MOST_ENTRIES {
        let rest = part(table, at, table.len());
        let Some(header) = entries::read_header(Layout::New, rest) else {
            return false;
        };
        if entries::lifetime(Layout::New, rest) == lifetime {
            return true;
        }
        at = at.saturating_add(header.size);
    }
    false
}

// Where an answer's lifetime over a table is counted.
fn place_of_lifetime(table: &[u8], lifetime: u32) -> u8 {
    if lifetime == 0 {
        tally::ZEROS
    } else if has_lifetime(table, lifetime) {
        tally::LIVES
    } else {
        tally::STRAYS
    }
}

// Folds both counts and the lifetime.
fn fold_counts(digest: u64, lookups: u8, voids: u8, lifetime: u32) -> u64 {
    let counted = tally::fold_number(digest, 256 * lookups as usize + voids as usize);
    let low = tally::fold_number(counted, (lifetime % 65536) as usize);
    tally::fold_number(low, (lifetime / 65536) as usize)
}

// Counts an answer over a table and folds its number, kind or place, its counts and lifetime, what it wrote, and the place and length of an exp argument.
fn note_answer(
    answer: Result<Answer, Option<Refusal>>,
    table: &[u8],
    name: &[u8],
    counts: &mut [u64],
    digest: u64,
) -> u64 {
    match answer {
        Ok(
            Answer::Decided {
                value,
                counts: c,
                lifetime,
            },
        ) => {
            tally::count(counts, tally::EVALUATE, value);
            tally::count(counts, place_of(value, c.lookups, c.voids), 0);
            tally::count(counts, place_of_lifetime(table, lifetime), 0);
            tally::count_kept(name, 0, b"", 0, counts);
            fold_counts(
                tally::fold_number(digest, value as usize),
                c.lookups,
                c.voids,
                lifetime,
            )
        }
        Ok(
            Answer::Fail {
                counts: c,
                lifetime,
                domain: n,
                place,
                length,
            },
        ) => {
            tally::count(counts, tally::EVALUATE, 3);
            tally::count(counts, place_of_lifetime(table, lifetime), 0);
            tally::count_kept(name, n, b"", 0, counts);
            let numbered = tally::fold_number(digest, 3);
            let counted = fold_counts(numbered, c.lookups, c.voids, lifetime);
            let named = tally::fold_bytes(counted, part(name, 0, n));
            tally::fold_number(tally::fold_number(named, place), length)
        }
        Ok(
            Answer::Wanting {
                question,
                counts: c,
                lifetime,
            },
        ) => {
            let n = question.length;
            tally::count(counts, tally::EVALUATE, 7);
            tally::count(counts, place_of_lifetime(table, lifetime), 0);
            tally::count_kept(name, n, b"", 0, counts);
            let kinded = tally::fold_number(digest, 65536 * 7 + question.kind as usize);
            let counted = fold_counts(kinded, c.lookups, c.voids, lifetime);
            tally::fold_bytes(counted, part(name, 0, n))
        }
        Err(refusal) => {
            tally::count(counts, tally::EVALUATE, number_of(refusal));
            tally::count_kept(name, 0, b"", 0, counts);
            fold_refusal(refusal, digest)
        }
    }
}

// One evaluation over a table, which then has an entry for the question that was wanting; if none was, the explanation.
fn run_turn(
    seed: u64,
    rooms: u64,
    mail: Mail,
    table: &mut Writer,
    counts: &mut [u64],
    digest: u64,
) -> Turn {
    let mut name = [0u8; 300];
    case_support::fill(&mut name);
    let t = texts::written(table);
    let answer = evaluate_front(rooms, mail, t, &mut name);
    let noted = note_answer(answer, t, &name, counts, digest);
    let Ok(Answer::Wanting { question, .. }) = answer else {
        return Turn {
            digest: explanations::run(seed, answer, &name, mail, table, counts, noted),
            wanting: false,
        };
    };
    tables::grow(seed, question.kind, part(&name, 0, question.length), table);
    Turn {
        digest: noted,
        wanting: true,
    }
}

// Evaluates until no question is wanting, but at most 60 times.
pub fn run(seed: u64, mail: Mail, table: &mut [u8], counts: &mut [u64], digest: u64) -> u64 {
    let rooms = random::draw(seed, 100);
    let mut folded = digest;
    let mut table = Writer::new(table);
    tables::put_table(random::draw(seed, 101), &mut table);
    for turn in 0..60u64 {
        let drawn = random::draw(seed, 60 - turn);
        tables::spoil(drawn, &mut table);
        let turn = run_turn(drawn, rooms, mail, &mut table, counts, folded);
        folded = turn.digest;
        if !turn.wanting {
            break;
        }
    }
    folded
}
