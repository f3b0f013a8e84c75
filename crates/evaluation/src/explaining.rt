// The second call: the explanation of a fail, from the failing record's domain and the place and length of its exp argument, as the first call gave them.
ghost use Rattle.std.specs.Prelude.{◌≡◌};
ghost use Rattle.domain.specs.Normal.{Naming, normal};
ghost use Rattle.rules.specs.Outcomes.{mail_in};
ghost use Rattle.evaluation.specs.Checks.{FindsExp};
ghost use Rattle.evaluation.specs.Second.{lent, handed, answer_for, Makes, Explains};

use crate::check::in_table;
use crate::{BEGUN, Refusal, check_arguments};
use address::Address;
use domain::MOST_NAME;
use records::opening;
use rules::{Mail, Selected, Wanted};
use text::bytes;
use text::spans::Span;

// What the second call answers; its counts are 0. A question without an entry is one of its answers, and no error.
#[derive(Clone, Copy, PartialEq, Eq)]
pub enum Explanation {
    // 3: the length of the text.
    Text(usize),
    // 7: the question that has no entry.
    Wanting(Wanted),
}

// A shorter text buffer is refused with 23.
const MOST_TEXT: usize = 500;

// Where the exp argument of the accepted record that is selected for a domain stands in the table.
fn find_exp(table: &[u8], domain: &[u8]) -> Option<Span>
    ensures { FindsExp table.now domain.now result }
{
    if domain::count_labels(domain) <= 1 {
        return None;
    }
    let found = record_lookup::select_record(table, domain, None);
    let Selected::One { text, .. } = found.selected else {
        return None;
    };
    let Ok(reading) = opening::open_record(text.of(table), Address::IPv4(0)) else {
        return None;
    };
    in_table(reading.modifiers.exp, text.from)
}

// The answer with what an explanation comes to.
#[tactic(auto, using(text::proofs::Laws::Tests::ways), unfolding(crate::specs::Second::answer_for))]
fn answer_of(explained: Result<usize, Wanted>) -> Explanation
    ensures { result ≡ answer_for explained }
{
    match explained {
        Ok(n) => Explanation::Text(n),
        Err(question) => Explanation::Wanting(question),
    }
}

// The explanation for a name: 28 unless its exp argument stands at the place and has the length.
fn explain_name(
    mail: &Mail,
    table: &[u8],
    domain: &[u8],
    place: usize,
    size: usize,
    name: &mut [u8],
    text: &mut [u8],
) -> Result<Explanation, Refusal>
    requires { place ≡ 0 → size ≡ 0 → ⊥ }
    ensures { Makes table.now (mail_in mail.now) (Naming.name domain.now) place size result name.old name.new text.old text.new }
{
    let Some(exp) = find_exp(table, domain) else {
        return Err(Refusal::Exp);
    };
    if exp.from != place || exp.to - exp.from != size {
        return Err(Refusal::Exp);
    }
    let explained = explanation::explain(mail, table, domain, exp.of(table), text, BEGUN, name);
    Ok(answer_of(explained))
}

// The explanation for a domain as it was given and a place and length that aren't both 0; a malformed domain has no record.
fn explain_given(
    mail: &Mail,
    table: &[u8],
    domain: &[u8],
    place: usize,
    size: usize,
    name: &mut [u8],
    text: &mut [u8],
) -> Result<Explanation, Refusal>
    requires { place ≡ 0 → size ≡ 0 → ⊥ }
    ensures { Makes table.now (mail_in mail.now) (normal domain.now) place size result name.old name.new text.old text.new }
{
    let mut to = [0u8; MOST_NAME];
    let Some(n) = domain::read_name(domain, &mut to) else {
        return Err(Refusal::Exp);
    };
    explain_name(mail, table, bytes::part(&to, 0, n), place, size, name, text)
}

// The explanation for a table that is accepted: no text for a place and a length of 0.
fn explain_accepted(
    mail: &Mail,
    table: &[u8],
    domain: &[u8],
    place: usize,
    size: usize,
    name: &mut [u8],
    text: &mut [u8],
) -> Result<Explanation, Refusal>
    ensures { Makes table.now (mail_in mail.now) (normal domain.now) place size result name.old name.new text.old text.new }
{
    if place == 0 && size == 0 {
        return Ok(Explanation::Text(0));
    }
    explain_given(mail, table, domain, place, size, name, text)
}

// The second call: 20 to 24 in that order, then 25 or 26, then 28 where `place` and `size`, not both 0, aren't the exp argument of an accepted record
// selected for the domain; then the text at the front of `text`, or the name of a wanted question at the front of `name`.
pub fn explain(
    client: Address,
    domain: &[u8],
    sender: &[u8],
    helo: &[u8],
    receiver: &[u8],
    seconds: u64,
    table: &[u8],
    place: usize,
    size: usize,
    name: &mut [u8],
    text: &mut [u8],
) -> Result<Explanation, Refusal>
    ensures { Explains (lent client domain.now sender.now helo.now receiver.now seconds table.now place size name.old text.old) (handed result name.new text.new) }
{
    check_arguments(domain, sender, helo, receiver, name.len())?;
    if text.len() < MOST_TEXT {
        return Err(Refusal::Room);
    }
    answer_table::check_table(table)?;
    let mail = Mail {
        client: address::as_client(client),
        sender,
        helo,
        receiver,
        seconds,
    };
    explain_accepted(&mail, table, domain, place, size, name, text)
}
