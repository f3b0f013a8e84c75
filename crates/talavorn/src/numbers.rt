// The numbers and octets that the calls hand back for an answer.
ghost use Rattle.std.specs.Prelude.{◌-◌, ◌≤◌, ◌≡◌, [], ◌∷◌, length, ℕ, Err};
ghost use Rattle.text.specs.Writing.{overwritten};
ghost use Rattle.address.specs.Octets.{octets};
ghost use Rattle.answer_table.specs.Numbers.{reported};
ghost use Rattle.answer_entry.specs.Numbers.{outcome_of};
ghost use Rattle.talavorn.specs.Numbers.{evaluation_row, encoded, encoded_explanation, table_numbers, appended_numbers, expanded_numbers, form_of, written_numbers, identity_for, line_numbers, house_numbers, Inside, shape, network_shape, shape_of, term_row, network_of};

use address::Address;
use answer_entry::AppendError;
use answer_table::TableError;
use evaluation::explaining::Explanation;
use evaluation::{Answer, Refusal};
use macros::{ExpandError, Form};
use publishing::HouseError;
use received::{Identity, LineError, Parts};
use records::Term;
use rules::Counts;
use text::writing::Writer;

// The numbers of a term: its kind, its sign or 0, where its argument stands in the term's own text, and its prefix lengths or 0.
#[derive(Clone, Copy)]
pub struct Shape {
    pub kind: u8,
    pub sign: u8,
    pub from: usize,
    pub to: usize,
    pub four: u8,
    pub six: u8,
}

// The row of an answer: kind or 0, both counts, the lifetime, the length of the name, and the place and length of exp.
fn evaluation_row(
    kind: u16,
    counts: Counts,
    lifetime: u32,
    name: usize,
    place: usize,
    size: usize,
) -> [usize; 7]
    ensures { result ≡ evaluation_row kind counts lifetime name place size }
{
    [
        kind as usize,
        counts.lookups as usize,
        counts.voids as usize,
        lifetime as usize,
        name,
        place,
        size,
    ]
}

// Writes what an evaluation answers: kind or place, both counts, the lifetime, the length of the name, and the place and length of exp; answers the number.
#[tactic(auto, using(text::proofs::Laws::Tests::ways), unfolding(crate::specs::Numbers::encoded))]
pub fn put_answer(answer: Result<Answer, Refusal>, values: &mut [usize; 7]) -> u8
    ensures { (result ∷ values.new) ≡ encoded answer }
{
    match answer {
        Ok(
            Answer::Decided {
                value,
                counts,
                lifetime,
            },
        ) => {
            *values = evaluation_row(0, counts, lifetime, 0, 0, 0);
            value
        }
        Ok(
            Answer::Fail {
                counts,
                lifetime,
                domain,
                place,
                length: size,
            },
        ) => {
            *values = evaluation_row(0, counts, lifetime, domain, place, size);
            3
        }
        Ok(
            Answer::Wanting {
                question,
                counts,
                lifetime,
            },
        ) => {
            *values = evaluation_row(question.kind, counts, lifetime, question.length, 0, 0);
            7
        }
        Err(refusal) => {
            *values = [refusal.place().unwrap_or(0), 0, 0, 0, 0, 0, 0];
            refusal.number()
        }
    }
}

// Writes what an explanation answers: kind or place, and the length of the text or name; answers the number.
#[tactic(auto, using(text::proofs::Laws::Tests::ways), unfolding(crate::specs::Numbers::encoded_explanation))]
pub fn put_explanation(answer: Result<Explanation, Refusal>, values: &mut [usize; 2]) -> u8
    ensures { (result ∷ values.new) ≡ encoded_explanation answer }
{
    match answer {
        Ok(Explanation::Text(size)) => {
            *values = [0, size];
            3
        }
        Ok(Explanation::Wanting(question)) => {
            *values = [question.kind as usize, question.length];
            7
        }
        Err(refusal) => {
            *values = [refusal.place().unwrap_or(0), 0];
            refusal.number()
        }
    }
}

// Writes what an expansion answers: the length; answers 0, or the number of the refusal.
#[tactic(auto, using(text::proofs::Laws::Tests::ways), unfolding(crate::specs::Numbers::expanded_numbers))]
pub fn put_expanded(answer: Result<usize, ExpandError>, size: &mut usize) -> u8
    ensures { (result ∷ size.new ∷ []) ≡ expanded_numbers answer }
{
    match answer {
        Ok(n) => {
            *size = n;
            0
        }
        Err(e) => {
            *size = 0;
            e.number()
        }
    }
}

// 0 a domain-spec, 1 an explanation text.
#[tactic(auto, using(text::proofs::Laws::Tests::ways), unfolding(crate::specs::Numbers::form_of))]
pub fn form_of(form: u8) -> Option<Form>
    ensures { result ≡ form_of form }
{
    match form {
        0 => Some(Form::DomainSpec),
        1 => Some(Form::Explanation),
        _ => None,
    }
}

// Writes bytes at the front of a buffer.
fn put_front(s: &[u8], out: &mut [u8])
    ensures { out.new ≡ overwritten s.now out.old }
{
    let mut w = Writer::new(out);
    w.put_all(s);
}

// Writes the octets of an address at the front; answers how many.
pub fn put_octets(a: Address, out: &mut [u8; 16]) -> u8
    ensures { (result ≡ length (octets a)) × (out.new ≡ overwritten (octets a) out.old) }
{
    match a {
        Address::IPv4(v) => {
            put_front(&address::octets4(v), out);
            4
        }
        Address::IPv6(high, low) => {
            put_front(&address::octets16(high, low), out);
            16
        }
    }
}

// Writes the octets of a term's network; for any other term nothing.
pub fn put_network(term: Term, out: &mut [u8; 16])
    ensures { out.new ≡ overwritten (network_of term) out.old }
{
    if let Term::Network { address, .. } = term {
        put_octets(address, out);
    }
}

fn make_shape(kind: u8, sign: u8, from: usize, to: usize, four: u8, six: u8) -> Shape
    ensures { result ≡ shape kind sign from to four six }
{
    Shape {
        kind,
        sign,
        from,
        to,
        four,
        six,
    }
}

// The shape of a network: its family's prefix length.
fn network(sign: u8, from: usize, to: usize, a: Address, bits: u8) -> Shape
    ensures { result ≡ network_shape sign from to a bits }
{
    match a {
        Address::IPv4(_) => make_shape(6, sign, from, to, bits, 0),
        Address::IPv6(_, _) => make_shape(7, sign, from, to, 0, bits),
    }
}

// The shape of a term whose text has a size.
fn shape_of(size: usize, term: Term) -> Shape
    requires { Inside size term }
    ensures { result ≡ shape_of size term }
{
    match term {
        Term::All { sign } => make_shape(1, sign, size, size, 0, 0),
        Term::Include { sign, from, to } => make_shape(2, sign, from, to, 0, 0),
        Term::A {
            sign,
            from,
            to,
            four,
            six,
        } => make_shape(3, sign, from, to, four, six),
        Term::Mx {
            sign,
            from,
            to,
            four,
            six,
        } => make_shape(4, sign, from, to, four, six),
        Term::Ptr { sign, from, to } => make_shape(5, sign, from, to, 0, 0),
        Term::Network {
            sign,
            from,
            to,
            address,
            length,
        } => network(sign, from, to, address, length),
        Term::Exists { sign, from, to } => make_shape(8, sign, from, to, 0, 0),
        Term::Redirect { from, to } => make_shape(9, 0, from, to, 0, 0),
        Term::Explanation { from, to } => make_shape(10, 0, from, to, 0, 0),
        Term::Unknown { name, to } => make_shape(11, 0, name + 1, to, 0, 0),
    }
}

// Writes the numbers of a term that stands in its record from a place up to another.
pub fn put_term(at: usize, next: usize, term: Term, values: &mut [usize; 8])
    requires { (at ≤ next) × Inside (next - at) term }
    ensures { values.new ≡ term_row at next (shape_of (next - at) term) }
{
    let s = shape_of(next - at, term);
    let from = s.from;
    let to = s.to;
    *values = [
        at,
        next,
        s.kind as usize,
        s.sign as usize,
        at + from,
        at + to,
        s.four as usize,
        s.six as usize,
    ];
}

// Writes what checking or rewriting a table answers: how many entries, or the length of the new one, or the place of a refusal, 0 where it has none; answers
// 0, or the number of the refusal.
#[tactic(auto, using(text::proofs::Laws::Tests::ways), unfolding(crate::specs::Numbers::table_numbers))]
pub fn put_table(answer: Result<usize, TableError>, value: &mut usize) -> u8
    ensures { (result ∷ value.new ∷ []) ≡ table_numbers (reported answer) }
{
    match answer {
        Ok(n) => {
            *value = n;
            0
        }
        Err(TableError::TooLong) => {
            *value = 0;
            24
        }
        Err(TableError::Malformed(at)) => {
            *value = at;
            25
        }
        Err(TableError::Repeated(at)) => {
            *value = at;
            26
        }
    }
}

// Writes the place of a refusal to append, 0 where it has none; answers its number.
fn put_unappended(e: AppendError, place: &mut usize) -> u8
    ensures { (size : ℕ) → (result ∷ size ∷ place.new ∷ []) ≡ appended_numbers size (outcome_of (Err e)) }
{
    match e {
        AppendError::Table(e) => put_table(Err(e), place),
        AppendError::InTable => {
            *place = 0;
            64
        }
        AppendError::Unfit => {
            *place = 0;
            65
        }
    }
}

// Writes what appending an entry answers: the length of the new table, or the place of a refusal, 0 where it has none; answers the number.
#[tactic(auto, using(text::proofs::Laws::Tests::ways), unfolding(crate::specs::Numbers::appended_numbers))]
pub fn put_appended(answer: Result<usize, AppendError>, size: &mut usize, place: &mut usize) -> u8
    ensures { (result ∷ size.new ∷ place.new ∷ []) ≡ appended_numbers size.old (outcome_of answer) }
{
    match answer {
        Ok(end) => {
            *size = end;
            *place = 0;
            0
        }
        Err(e) => put_unappended(e, place),
    }
}

// The identity of a number.
#[tactic(auto, using(text::proofs::Laws::Tests::ways), unfolding(crate::specs::Numbers::identity_for))]
pub fn identity_for(n: u8) -> Option<Identity>
    ensures { result ≡ identity_for n }
{
    match n {
        0 => Some(Identity::MailFrom),
        1 => Some(Identity::Helo),
        _ => None,
    }
}

// Writes the length of a line or a value; answers the number.
#[tactic(auto, using(text::proofs::Laws::Tests::ways), unfolding(crate::specs::Numbers::written_numbers))]
pub fn put_written(answer: Result<usize, LineError>, size: &mut usize) -> u8
    ensures { (result ∷ size.new ∷ []) ≡ written_numbers answer }
{
    match answer {
        Ok(n) => {
            *size = n;
            0
        }
        Err(e) => {
            *size = 0;
            e.number()
        }
    }
}

// Writes what reading a line answers: the result's number and the places of the five parts; answers the number.
#[tactic(auto, using(text::proofs::Laws::Tests::ways), unfolding(crate::specs::Numbers::line_numbers))]
pub fn put_line(answer: Result<Parts, LineError>, values: &mut [usize; 11]) -> u8
    ensures { (result ∷ values.new) ≡ line_numbers answer }
{
    match answer {
        Ok(
            Parts {
                result,
                receiver,
                client,
                sender,
                helo,
                identity,
            },
        ) => {
            *values = [
                result as usize,
                receiver.from,
                receiver.to,
                client.from,
                client.to,
                sender.from,
                sender.to,
                helo.from,
                helo.to,
                identity.from,
                identity.to,
            ];
            0
        }
        Err(e) => {
            *values = [0; 11];
            e.number()
        }
    }
}

// Writes what the house rules answer: the number of breaches, or the place of a refusal, 0 where it has none; answers 0, or the number of the refusal.
#[tactic(auto, using(text::proofs::Laws::Tests::ways), unfolding(crate::specs::Numbers::house_numbers))]
pub fn put_house(answer: Result<usize, HouseError>, value: &mut usize) -> u8
    ensures { (result ∷ value.new ∷ []) ≡ house_numbers answer }
{
    match answer {
        Ok(count) => {
            *value = count;
            0
        }
        Err(e) => {
            *value = e.place();
            e.number()
        }
    }
}
