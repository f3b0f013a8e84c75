// An evaluation in two calls: whether a client may send for a domain, or the one question that is missing; and then, for a fail, its explanation.
#![tactic(auto)]

ghost use Rattle.std.specs.Prelude.{◌≡◌, IfOk, OnErr};
ghost use Rattle.answer_table.specs.declared.TableError.{TableError};
ghost use Rattle.rules.specs.Lifetimes.{seconds};
ghost use Rattle.rules.specs.Evaluation.{evaluation};
ghost use Rattle.rules.specs.Outcomes.{mail_in, Checks, FailingAt};
ghost use Rattle.evaluation.specs.Evaluating.{number_of, place_of, refusal_of};
ghost use Rattle.evaluation.specs.First.{lent, handed, finished, Says, Decides, Evaluates};
ghost use Rattle.evaluation.specs.declared.Refusal.TheVariants.{Table};

use address::Address;
use answer_table::TableError;
use domain::MOST_NAME;
use macros::values;
use rules::{Checked, Counts, FailingPlace, Mail, Progress, Wanted};
use text::bytes;

mod check;
pub mod explaining;

// Why a call is refused.
#[derive(Clone, Copy, PartialEq, Eq)]
pub enum Refusal {
    // 20: the sender is not 1 to 320 bytes of 32 to 126.
    Sender,
    // 21: the HELO name or the receiver is over 255 bytes, or has a byte outside 33 to 126.
    Host,
    // 22: the domain is over 255 bytes.
    Domain,
    // 23: the name buffer is under 253 bytes, or the text buffer under 500.
    Room,
    // 24 to 26: the table's refusal.
    Table(TableError),
    // 28: place and length are not the exp argument of an accepted record selected for the domain.
    Exp,
}

impl From<TableError> for Refusal {
    ghost from_gives = { λ e r. r ≡ Table e };

    fn from(e: TableError) -> Refusal {
        Refusal::Table(e)
    }
}

impl Refusal {
    // The refusal's number.
    #[tactic(auto, using(text::proofs::Laws::Tests::ways), unfolding(crate::specs::Evaluating::number_of))]
    pub fn number(self) -> u8
        ensures { result ≡ number_of self }
    {
        match self {
            Refusal::Sender => 20,
            Refusal::Host => 21,
            Refusal::Domain => 22,
            Refusal::Room => 23,
            Refusal::Table(TableError::TooLong) => 24,
            Refusal::Table(TableError::Malformed(_)) => 25,
            Refusal::Table(TableError::Repeated(_)) => 26,
            Refusal::Exp => 28,
        }
    }

    // The place in the table of 25 and 26.
    #[tactic(auto, using(text::proofs::Laws::Tests::ways), unfolding(crate::specs::Evaluating::place_of))]
    pub fn place(self) -> Option<usize>
        ensures { result ≡ place_of self }
    {
        match self {
            Refusal::Table(TableError::Malformed(at)) => Some(at),
            Refusal::Table(TableError::Repeated(at)) => Some(at),
            _ => None,
        }
    }
}

// What the first call answers. A question without an entry is one of its answers, and no error.
#[derive(Clone, Copy, PartialEq, Eq)]
pub enum Answer {
    // 0 to 6 but 3, both counts, and how many seconds the decision may be kept.
    Decided {
        value: u8,
        counts: Counts,
        lifetime: u32,
    },
    // 3: both counts, the lifetime, the length of the failing record's domain, and the place and length of its exp argument in the table, 0 and 0 where it has none.
    Fail {
        counts: Counts,
        lifetime: u32,
        domain: usize,
        place: usize,
        length: usize,
    },
    // 7: the question that has no entry, and the counts and the lifetime so far.
    Wanting {
        question: Wanted,
        counts: Counts,
        lifetime: u32,
    },
}

// Nothing has been asked yet.
const BEGUN: Progress = Progress {
    counts: Counts {
        lookups: 0,
        voids: 0,
    },
    life: None,
};

// Tests the arguments: 20 to 23 in that order, 23 for a name buffer's length.
#[tactic(auto, using(text::proofs::Laws::Tests::ways), unfolding(crate::specs::Evaluating::refusal_of))]
fn check_arguments(
    domain: &[u8],
    sender: &[u8],
    helo: &[u8],
    receiver: &[u8],
    room: usize,
) -> Result<(), Refusal>
    ensures { result ≡ refusal_of domain.now sender.now helo.now receiver.now room }
{
    if !values::is_sender(sender) {
        return Err(Refusal::Sender);
    }
    if !values::are_hosts(helo, receiver) {
        return Err(Refusal::Host);
    }
    if !values::is_short(domain) {
        return Err(Refusal::Domain);
    }
    if room < MOST_NAME {
        return Err(Refusal::Room);
    }
    Ok(())
}

// The check of a domain as it was given: one trailing dot is dropped and A to Z lowered; a malformed one gives none.
fn check_given(
    mail: &Mail,
    table: &[u8],
    domain: &[u8],
    progress: &mut Progress,
    out: &mut [u8],
) -> Result<Checked, Wanted>
    requires { progress.old ≡ BEGUN }
    ensures { Checks table.now (evaluation (mail_in mail.now) domain.now) progress.old progress.new result out.old out.new }
{
    let mut to = [0u8; MOST_NAME];
    let Some(n) = domain::read_name(domain, &mut to) else {
        return Ok(check::ended(0));
    };
    check::check_domain(mail, table, bytes::part(&to, 0, n), progress, out)
}

// The smallest lifetime met, or 0 where no entry was.
#[tactic(auto, using(text::proofs::Laws::Tests::ways), unfolding(rules::specs::Lifetimes::seconds))]
fn seconds_of(life: Option<u32>) -> u32
    ensures { result ≡ seconds life }
{
    life.unwrap_or(0)
}

// The answer with a result; for a fail the failing record's domain is written.
fn finish(table: &[u8], checked: Checked, counts: Counts, lifetime: u32, name: &mut [u8]) -> Answer
    requires { FailingAt table.now checked.failing }
    ensures { Says (finished table.now checked.value counts lifetime checked.failing) (Ok result) name.old name.new }
{
    let Some(place) = checked.failing else {
        return Answer::Decided {
            value: checked.value,
            counts,
            lifetime,
        };
    };
    let d = place.domain.of(table);
    client_match::put_name(d, name);
    let (at, length) = match place.exp {
        None => (0, 0),
        Some(exp) => (exp.from, exp.to - exp.from),
    };
    Answer::Fail {
        counts,
        lifetime,
        domain: d.len(),
        place: at,
        length,
    }
}

// The check of a domain and its answer.
fn decide(mail: &Mail, table: &[u8], domain: &[u8], name: &mut [u8]) -> Answer
    ensures { Decides table.now (evaluation (mail_in mail.now) domain.now) (Ok result) name.old name.new }
{
    let mut progress = BEGUN;
    let ending = check_given(mail, table, domain, &mut progress, name);
    let counts = progress.counts;
    let lifetime = seconds_of(progress.life);
    match ending {
        Ok(checked) => finish(table, checked, counts, lifetime, name),
        Err(question) => Answer::Wanting {
            question,
            counts,
            lifetime,
        },
    }
}

// The first call: 20 to 24 in that order, then 25 or 26, then the result. The name of a wanted question or the failing record's domain is written at the
// front of `name`. No question of an explanation is asked. The lifetime is the smallest of the entries that its questions found. The parts of a mail are
// given one by one: a longer sender is refused here, and no `Mail` has one.
pub fn evaluate(
    client: Address,
    domain: &[u8],
    sender: &[u8],
    helo: &[u8],
    receiver: &[u8],
    seconds: u64,
    table: &[u8],
    name: &mut [u8],
) -> Result<Answer, Refusal>
    ensures { Evaluates (lent client domain.now sender.now helo.now receiver.now seconds table.now name.old) (handed result name.new) }
{
    check_arguments(domain, sender, helo, receiver, name.len())?;
    answer_table::check_table(table)?;
    let mail = Mail {
        client: address::as_client(client),
        sender,
        helo,
        receiver,
        seconds,
    };
    Ok(decide(&mail, table, domain, name))
}
