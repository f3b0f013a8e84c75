// The calls for programs in C and in other languages: numbers and byte slices go in, a number comes back, and all else is written into lent arrays
// and buffers. embed/talavorn.h says in C what the contracts here say. No call keeps anything, and none has a `requires`.
#![tactic(auto)]

ghost use Rattle.std.specs.Prelude.{[], ◌∷◌, length};
ghost use Rattle.address.specs.Octets.{from_octets};
ghost use Rattle.macros.specs.Expansion.{given};
ghost use Rattle.macros.specs.Numbers.{outcome};
ghost use Rattle.received.specs.Answers.{given as lineGiven};
ghost use Rattle.talavorn.specs.Numbers.{form_of, identity_for};
ghost use Rattle.talavorn.specs.Calls.{EvaluateAnswers, ExplainAnswers, RecordSays, TermSays, ExpandSays, ExpandAnswers, WriteAnswers, LineSays, UnquoteAnswers, HouseSays, MatchSays, TableSays, AppendSays, AddSays, AddressSays};

use answer_entry::NewEntry;
use evaluation::explaining;
use macros::Given;
use received::Checked;

pub mod numbers;

// Evaluates a domain for a client of 4 or 16 octets: 90 for any other client, then as evaluation::evaluate.
pub fn talavorn_evaluate(
    client: &[u8],
    domain: &[u8],
    sender: &[u8],
    helo: &[u8],
    receiver: &[u8],
    seconds: u64,
    table: &[u8],
    name: &mut [u8],
    values: &mut [usize; 7],
) -> u8
    ensures { EvaluateAnswers (from_octets client.now) domain.now sender.now helo.now receiver.now seconds table.now (result ∷ values.new) name.old name.new }
{
    let Some(a) = address::from_octets(client) else {
        *values = [0; 7];
        return 90;
    };
    let answer = evaluation::evaluate(a, domain, sender, helo, receiver, seconds, table, name);
    numbers::put_answer(answer, values)
}

// Makes the text of a fail from the failing record's domain and the place and length of its exp argument, as talavorn_evaluate gave them: 90 for a client
// that is not 4 or 16 octets, then as evaluation::explaining::explain.
pub fn talavorn_explain(
    client: &[u8],
    domain: &[u8],
    sender: &[u8],
    helo: &[u8],
    receiver: &[u8],
    seconds: u64,
    table: &[u8],
    place: usize,
    size: usize,
    name: &mut [u8],
    text: &mut [u8],
    values: &mut [usize; 2],
) -> u8
    ensures { ExplainAnswers (from_octets client.now) domain.now sender.now helo.now receiver.now seconds table.now place size (result ∷ values.new) name.old name.new text.old text.new }
{
    let Some(a) = address::from_octets(client) else {
        *values = [0; 2];
        return 90;
    };
    let answer = explaining::explain(
        a, domain, sender, helo, receiver, seconds, table, place, size, name, text,
    );
    numbers::put_explanation(answer, values)
}

// Reads a record: 0 and the place just after the version, or 30 to 33 and the place that is to blame.
pub fn talavorn_read_record(s: &[u8], place: &mut usize) -> u8
    ensures { RecordSays s.now (result ∷ place.new ∷ []) }
{
    match records::read_record(s) {
        Ok(next) => {
            *place = next;
            0
        }
        Err(refusal) => {
            *place = refusal.at;
            refusal.reason.number()
        }
    }
}

// Reads one term from a place on: 1 and the term, 0 for the end, or 30, 34 or 32 and the place. A network's octets are written.
pub fn talavorn_read_term(
    s: &[u8],
    place: usize,
    values: &mut [usize; 8],
    network: &mut [u8; 16],
) -> u8
    ensures { TermSays s.now place (result ∷ values.new) network.old network.new }
{
    let read = match records::read_term(s, place) {
        Ok(read) => read,
        Err(refusal) => {
            *values = [refusal.at, 0, 0, 0, 0, 0, 0, 0];
            return refusal.reason.number();
        }
    };
    let Some(read) = read else {
        *values = [0; 8];
        return 0;
    };
    numbers::put_term(read.at, read.next, read.term, values);
    numbers::put_network(read.term, network);
    1
}

// Expands a macro string: 91 for a form that is neither 0, a domain-spec, nor 1, an explanation text; 90 for a client that is not 4 or 16 octets; then
// as macros::expand.
pub fn talavorn_expand(
    form: u8,
    text: &[u8],
    client: &[u8],
    domain: &[u8],
    sender: &[u8],
    helo: &[u8],
    receiver: &[u8],
    p: &[u8],
    seconds: u64,
    out: &mut [u8],
    size: &mut usize,
) -> u8
    ensures expand_says { ExpandSays (form_of form) (from_octets client.now) (λ f a. outcome f text.now (given sender.now helo.now receiver.now domain.now p.now a seconds) (length out.old)) (result ∷ size.new ∷ []) out.old out.new }
    ensures expand_answers { ExpandAnswers (form_of form) (from_octets client.now) text.now (λ a. given sender.now helo.now receiver.now domain.now p.now a seconds) (result ∷ size.new ∷ []) out.old out.new }
{
    let Some(f) = numbers::form_of(form) else {
        *size = 0;
        return 91;
    };
    let Some(client) = address::from_octets(client) else {
        *size = 0;
        return 90;
    };
    let given = Given {
        sender,
        helo,
        receiver,
        domain,
        p,
        client,
        seconds,
    };
    let answer = macros::expand(f, text, &given, out);
    numbers::put_expanded(answer, size)
}

// Writes the Received-SPF line at the front of a buffer: 92 for an identity that is neither 0, `mailfrom`, nor 1, `helo`; 90 for a client that is not 4 or
// 16 octets; then as received::write_line.
pub fn talavorn_write_line(
    res: u8,
    client: &[u8],
    sender: &[u8],
    helo: &[u8],
    receiver: &[u8],
    identity: u8,
    out: &mut [u8],
    size: &mut usize,
) -> u8
    ensures { WriteAnswers (identity_for identity) (from_octets client.now) (λ a i. lineGiven res a sender.now helo.now receiver.now i) (result ∷ size.new ∷ []) out.old out.new }
{
    let Some(identity) = numbers::identity_for(identity) else {
        *size = 0;
        return 92;
    };
    let Some(client) = address::from_octets(client) else {
        *size = 0;
        return 90;
    };
    let checked = Checked {
        client,
        sender,
        helo,
        receiver,
        identity,
    };
    numbers::put_written(received::write_line(res, &checked, out), size)
}

// Reads a Received-SPF line: 0, its result and where the parts of its five values stand, or 51.
pub fn talavorn_read_line(line: &[u8], values: &mut [usize; 11]) -> u8
    ensures { LineSays line.now (result ∷ values.new) }
{
    numbers::put_line(received::read_line(line), values)
}

// Takes the backslashes out of a part of a Received-SPF line: 0 and the value's length, the value at the front of a buffer; or 51, 50.
pub fn talavorn_unquote(part: &[u8], out: &mut [u8], size: &mut usize) -> u8
    ensures { UnquoteAnswers part.now (result ∷ size.new ∷ []) out.old out.new }
{
    numbers::put_written(received::unquote(part, out), size)
}

// Holds a record with its domain name against the house rules: 0 and the number of breaches, which are listed at the front of a lent list; or 22, 30 to 33
// or 70 and the place, 0 for 22 and 70.
pub fn talavorn_house_rules(domain: &[u8], s: &[u8], list: &mut [u8], value: &mut usize) -> u8
    ensures { HouseSays domain.now s.now (result ∷ value.new ∷ []) list.old list.new }
{
    numbers::put_house(publishing::house_rules(domain, s, list), value)
}

// Whether a client matches a network at a prefix length: 1 or 0; 90 where one of the two is not 4 or 16 octets.
pub fn talavorn_matches(client: &[u8], network: &[u8], bits: usize) -> u8
    ensures { MatchSays (from_octets client.now) (from_octets network.now) bits result }
{
    let Some(a) = address::from_octets(client) else {
        return 90;
    };
    let Some(b) = address::from_octets(network) else {
        return 90;
    };
    if address::matches(a, b, bits) { 1 } else { 0 }
}

// Checks a table: 0 and the number of its entries, or 24 to 26 and the place.
pub fn talavorn_check_table(table: &[u8], place: &mut usize) -> u8
    ensures { TableSays table.now (result ∷ place.new ∷ []) }
{
    numbers::put_table(answer_table::check_table(table), place)
}

// Appends an entry to the table in the first bytes of a lent buffer: 0 and the new length; or 24 to 26, 64 or 65 with the buffer and the length as
// they were. The place is that of 25 and 26, else 0.
pub fn talavorn_append_entry(
    kind: u16,
    status: u8,
    lifetime: u32,
    name: &[u8],
    items: &[u8],
    table: &mut [u8],
    size: &mut usize,
    place: &mut usize,
) -> u8
    ensures { AppendSays kind status lifetime name.now items.now table.old size.old (result ∷ size.new ∷ place.new ∷ []) table.new }
{
    let entry = NewEntry {
        kind,
        status,
        lifetime,
        name,
        items,
    };
    numbers::put_appended(
        answer_entry::append_entry(&entry, table, *size),
        size,
        place,
    )
}

// Rewrites a table of the layout without lifetimes into a lent buffer, with a lifetime of 0 in each entry: 0 and the new length; or 24 to 26 and the
// place in the old table, 0 for 24.
pub fn talavorn_add_lifetimes(old: &[u8], new: &mut [u8], value: &mut usize) -> u8
    ensures { AddSays old.now (result ∷ value.new ∷ []) new.old new.new }
{
    numbers::put_table(old_layout::add_lifetimes(old, new), value)
}

// Reads an address, written as for ip4 or ip6: 4 or 16, with as many octets written, or 0.
pub fn talavorn_read_address(text: &[u8], octets: &mut [u8; 16]) -> u8
    ensures { AddressSays text.now result octets.old octets.new }
{
    let Some(a) = networks::read_address(text) else {
        return 0;
    };
    numbers::put_octets(a, octets)
}
