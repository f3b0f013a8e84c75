// The breaches of a record, as they are found term after term.
ghost use Rattle.std.specs.Prelude.{◌≡◌, ◌+◌, leb, ltb, ◌||◌};
ghost use Rattle.text.specs.Bytes.{part};
ghost use Rattle.text.specs.Writing.{Writes};
ghost use Rattle.records.specs.Numbers.{said_of};
ghost use Rattle.publishing.specs.House.{least_4, least_6, too_many_bytes};
ghost use Rattle.publishing.specs.Listing.{encoded};
ghost use Rattle.publishing.specs.Finding.{has_p, short_network, facts_of, count_after, seen_after, breaks_by, offences, end_offences, Surveys, PutsOffences, PutsFound};

use crate::listing::put_if;
use crate::rows::put_row;
use address::Address;
use duplicates::{MOST_ROWS, Row, mark_duplicates};
use macros::Form;
use records::{ReadTerm, Term};
use text::bytes;
use text::writing::Writer;

// What a term is, as the rules ask.
#[derive(Clone, Copy, Default)]
pub struct Facts {
    pub all: bool,
    pub plus: bool,
    pub ptr: bool,
    pub mechanism: bool,
    pub redirect: bool,
    pub modifier: bool,
    pub short: bool,
    pub network: bool,
}

// What has been seen so far: an `all`, a redirect, a redirect or an exp, and how many networks.
#[derive(Clone, Copy, Default)]
pub struct Seen {
    pub all: bool,
    pub redirect: bool,
    pub modifier: bool,
    pub networks: usize,
}

// A term as it is tested: whether the record has an `all`, what has been seen before the term, what it is, whether it has a p macro, and whether its
// network is marked.
#[derive(Clone, Copy)]
pub struct Tested {
    pub whole: bool,
    pub seen: Seen,
    pub facts: Facts,
    pub p: bool,
    pub marked: bool,
}

// The sign of an `all` that breaks rule (7).
const PLUS: u8 = b'+';

// Shorter prefix lengths break rule (8).
const LEAST_4: u8 = 8;

const LEAST_6: u8 = 19;

// This many bytes of name and text together, or more, break rule (10).
const TOO_MANY_BYTES: usize = 450;

fn short_network(address: Address, length: u8) -> bool
    ensures { result ≡ short_network address length }
{
    match address {
        Address::IPv4(_) => length < LEAST_4,
        Address::IPv6(_, _) => length < LEAST_6,
    }
}

fn short_hosts(four: u8, six: u8) -> bool
    ensures { result ≡ (ltb four least_4 || ltb six least_6) }
{
    four < LEAST_4 || six < LEAST_6
}

impl Facts {
    // What a term is.
    fn of(term: Term) -> Facts
        ensures { result ≡ facts_of term }
    {
        let modifier = Facts::default();
        let mechanism = Facts {
            mechanism: true,
            ..modifier
        };
        match term {
            Term::All { sign } => Facts {
                all: true,
                plus: sign == PLUS,
                ..mechanism
            },
            Term::Include { .. } => mechanism,
            Term::A { four, six, .. } => Facts {
                short: short_hosts(four, six),
                ..mechanism
            },
            Term::Mx { four, six, .. } => Facts {
                short: short_hosts(four, six),
                ..mechanism
            },
            Term::Ptr { .. } => Facts {
                ptr: true,
                ..mechanism
            },
            Term::Network {
                address,
                length,
                ..
            } => Facts {
                short: short_network(address, length),
                network: true,
                ..mechanism
            },
            Term::Exists { .. } => mechanism,
            Term::Redirect { .. } => Facts {
                redirect: true,
                modifier: true,
                ..modifier
            },
            Term::Explanation { .. } => Facts {
                modifier: true,
                ..modifier
            },
            Term::Unknown { .. } => modifier,
        }
    }
}

// A count of networks, after one more term.
fn count_after(n: usize, network: bool) -> usize
    ensures { result ≡ count_after n network }
{
    if network && n < MOST_ROWS { n + 1 } else { n }
}

impl Seen {
    // What has been seen after one more term.
    fn after(self, facts: Facts) -> Seen
        ensures { result ≡ seen_after self facts }
    {
        Seen {
            all: self.all || facts.all,
            redirect: self.redirect || facts.redirect,
            modifier: self.modifier || facts.modifier,
            networks: count_after(self.networks, facts.network),
        }
    }
}

// What stands in a record from a place on. Its networks are written into a table.
fn survey(s: &[u8], first: usize, table: &mut [Row; MOST_ROWS]) -> Seen
    ensures { Surveys s.now first table.old table.new result }
{
    let mut i = first;
    let mut seen = Seen::default();
    loop {
        let Ok(Some(ReadTerm { next, term, .. })) = records::next_term(s, i) else {
            return seen;
        };
        put_row(term, seen.networks, table);
        seen = seen.after(Facts::of(term));
        i = next;
    }
}

// Whether a term has a p macro. An early answer for a term without an argument, and few have a p macro: so most arguments are walked over once.
fn has_p(s: &[u8], at: usize, next: usize, term: Term) -> bool
    ensures { result ≡ has_p (said_of (part s.now at next) term).argument }
{
    let text = records::argument(s, at, next, term);
    if text.is_empty() {
        return false;
    }
    macros::uses_p(Form::ModifierValue, text)
        && macros::read_macro_string(Form::ModifierValue, text)
}

impl Tested {
    // Whether the term offends against a rule.
    fn breaks(self, rule: u8) -> bool
        ensures { result ≡ breaks_by self.whole self.seen self.facts self.p self.marked rule }
    {
        match rule {
            1 => self.facts.ptr,
            2 => self.p,
            3 => self.seen.all && self.facts.all,
            4 => self.whole && self.facts.redirect,
            5 => self.seen.all && self.facts.mechanism,
            6 => self.seen.modifier && !self.facts.modifier,
            7 => self.facts.plus,
            8 => self.facts.short,
            9 => self.facts.network && self.marked,
            _ => false,
        }
    }

    // Writes the breaches of the term, which stands at a place.
    fn put(self, place: usize, out: &mut Writer)
        ensures { Writes (encoded (offences (breaks_by self.whole self.seen self.facts self.p self.marked) place)) out.old out.new }
    {
        // Read so that its bound is known, which a term without a breach needs.
        let _start = out.at;
        for rule in 1..10 {
            put_if(self.breaks(rule), rule, place, out);
        }
    }
}

// Writes the breaches of the terms from a place on.
fn put_offences(s: &[u8], first: usize, whole: bool, marks: &[u8], out: &mut Writer)
    ensures { PutsOffences s.now first whole marks.now out.old out.new }
{
    // Read so that its bound is known, which a record without a breach needs.
    let _start = out.at;
    let mut i = first;
    let mut seen = Seen::default();
    loop {
        let Ok(Some(ReadTerm { at, next, term })) = records::next_term(s, i) else {
            return;
        };
        let facts = Facts::of(term);
        let tested = Tested {
            whole,
            seen,
            facts,
            p: has_p(s, at, next, term),
            marked: bytes::peek(marks, seen.networks) == 1,
        };
        tested.put(at, out);
        seen = seen.after(facts);
        i = next;
    }
}

// Whether two lengths together are too many bytes.
fn is_long(name: usize, size: usize) -> bool
    ensures { result ≡ leb too_many_bytes (name + size) }
{
    TOO_MANY_BYTES <= name.saturating_add(size)
}

// Writes the breaches at the record's length.
fn put_end(ended: bool, size: usize, name: usize, out: &mut Writer)
    ensures { Writes (encoded (end_offences ended size name)) out.old out.new }
{
    put_if(!ended, 3, size, out);
    put_if(is_long(name, size), 10, size, out);
}

// Writes all breaches of a record whose terms begin at a place, for a name of a length.
pub fn put_found(s: &[u8], first: usize, name: usize, out: &mut Writer)
    ensures { PutsFound s.now first name out.old out.new }
{
    let mut table = [Row::default(); MOST_ROWS];
    let mut marks = [0u8; MOST_ROWS];
    let whole = survey(s, first, &mut table);
    mark_duplicates(&table[..whole.networks], &mut marks);
    put_offences(s, first, whole.all, &marks, out);
    put_end(whole.all || whole.redirect, s.len(), name, out);
}
