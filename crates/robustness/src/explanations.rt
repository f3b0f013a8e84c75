// The explanations: over the table that an evaluation leaves, then over the same with an entry for each question that was wanted, damaged now and then.
use crate::checks::{fold_refusal, number_of};
use crate::turns::{Mail, Turn};
use evaluation::explaining::{Explanation, explain};
use evaluation::{Answer, Refusal};
use robustness_inputs::{arguments, random, tables, tally, texts};
use text::bytes::part;
use text::writing::Writer;

// What stays the same while questions are wanted: the place and length of an exp argument, and the seed of the time and of the buffers' lengths.
#[derive(Clone, Copy)]
struct Told {
    place: usize,
    length: usize,
    rooms: u64,
}

// A place and a length that an evaluation handed out, or others near them.
fn tell(seed: u64, place: usize, length: usize) -> Told {
    Told {
        place: arguments::pick_near(random::draw(seed, 1), place),
        length: arguments::pick_near(random::draw(seed, 2), length),
        rooms: random::draw(seed, 3),
    }
}

// An explanation that is lent the fronts of two buffers; none if one is shorter than that.
fn explain_front(
    told: Told,
    mail: Mail,
    table: &[u8],
    name: &mut [u8],
    text: &mut [u8],
) -> Result<Explanation, Option<Refusal>> {
    let name_room = arguments::name_room(told.rooms);
    let text_room = arguments::text_room(told.rooms);
    if name.len() < name_room || text.len() < text_room {
        return Err(None);
    }
    explain(
        mail.client,
        mail.domain,
        mail.sender,
        mail.helo,
        mail.receiver,
        arguments::pick_seconds(told.rooms),
        table,
        told.place,
        told.length,
        &mut name[..name_room],
        &mut text[..text_room],
    )
    .map_err(Some)
}

// Where a text is counted besides its number.
fn place_of(size: usize) -> u8 {
    if 0 < size {
        tally::TEXTS
    } else {
        tally::OTHERS
    }
}

// Counts an answer and folds its number, kind or place, and what it wrote.
fn note_answer(
    answer: Result<Explanation, Option<Refusal>>,
    name: &[u8],
    text: &[u8],
    counts: &mut [u64],
    digest: u64,
) -> u64 {
    match answer {
        Ok(Explanation::Text(n)) => {
            tally::count(counts, tally::EXPLAIN, 3);
            tally::count(counts, place_of(n), 0);
            tally::count_kept(name, 0, text, n, counts);
            tally::fold_bytes(tally::fold_number(digest, 3), part(text, 0, n))
        }
        Ok(Explanation::Wanting(question)) => {
            let n = question.length;
            tally::count(counts, tally::EXPLAIN, 7);
            tally::count_kept(name, n, text, 0, counts);
            let kinded = tally::fold_number(digest, 65536 * 7 + question.kind as usize);
            tally::fold_bytes(kinded, part(name, 0, n))
        }
        Err(refusal) => {
            tally::count(counts, tally::EXPLAIN, number_of(refusal));
            tally::count_kept(name, 0, text, 0, counts);
            fold_refusal(refusal, digest)
        }
    }
}

// One explanation over a table, which then has an entry for the question that was wanting.
fn run_turn(
    seed: u64,
    told: Told,
    mail: Mail,
    table: &mut Writer,
    counts: &mut [u64],
    digest: u64,
) -> Turn {
    let mut name = [0u8; 300];
    let mut text = [0u8; 600];
    case_support::fill(&mut name);
    case_support::fill(&mut text);
    let answer = explain_front(told, mail, texts::written(table), &mut name, &mut text);
    let digest = note_answer(answer, &name, &text, counts, digest);
    let Ok(Explanation::Wanting(question)) = answer else {
        return Turn {
            digest,
            wanting: false,
        };
    };
    tables::grow(seed, question.kind, part(&name, 0, question.length), table);
    Turn {
        digest,
        wanting: true,
    }
}

// Explains until no question is wanting, but at most 30 times.
fn run_turns(
    seed: u64,
    told: Told,
    mail: Mail,
    table: &mut Writer,
    counts: &mut [u64],
    digest: u64,
) -> u64 {
    let mut folded = digest;
    for turn in 0..30u64 {
        let drawn = random::draw(seed, 30 - turn);
        tables::spoil(drawn, table);
        let turn = run_turn(drawn, told, mail, table, counts, folded);
        folded = turn.digest;
        if !turn.wanting {
            break;
        }
    }
    folded
}

// What is told of a fail's exp argument, or of none.
fn told_of(seed: u64, answer: Result<Answer, Option<Refusal>>) -> Told {
    match answer {
        Ok(Answer::Fail { place, length, .. }) => tell(seed, place, length),
        _ => tell(seed, 0, 0),
    }
}

// Explains what an evaluation answered and wrote, over a table. The domain for the explanation of a fail is that which was written, for that of another
// answer the one that was given; rarely it is another.
pub fn run(
    seed: u64,
    answer: Result<Answer, Option<Refusal>>,
    name: &[u8],
    mail: Mail,
    table: &mut Writer,
    counts: &mut [u64],
    digest: u64,
) -> u64 {
    let mut failing = [0u8; 512];
    let mut failing = Writer::new(&mut failing);
    let decided = match answer {
        Ok(Answer::Fail { domain: n, .. }) => part(name, 0, n),
        _ => mail.domain,
    };
    arguments::put_failing(random::draw(seed, 100), decided, &mut failing);
    let mail = Mail {
        domain: texts::written(&failing),
        ..mail
    };
    let told = told_of(random::draw(seed, 102), answer);
    run_turns(random::draw(seed, 101), told, mail, table, counts, digest)
}
