// Records and their terms.
#![tactic(auto)]

ghost use Rattle.std.specs.Prelude.{◌≡◌, ◌+◌, ◌≤◌, length};
ghost use Rattle.text.specs.Bytes.{part};
ghost use Rattle.records.specs.Answers.{most_bytes, ReadsRecord, ReadsTerm, ReadsArgument};
ghost use Rattle.records.specs.Reader.{has_version, term_from, read_term};
ghost use Rattle.records.specs.Beginnings.{point_refusal, pointed_term, pointed_record};
ghost use Rattle.records.specs.Numbers.{number_of, sign_of};
ghost use Rattle.records.specs.declared.Reason.{Reason};

use address::Address;
use terms::read_token;
use text::bytes::Class;
use text::{bytes, words};

mod beginnings;
pub mod opening;
pub mod terms;

// A term. `from` and `to` are places in the term's own text: where its argument stands, and equal where `a`, `mx` or `ptr` has none. An unknown
// modifier's name ends at `name`, where its `=` stands.
#[derive(Clone, Copy)]
pub enum Term {
    All {
        sign: u8,
    },
    Include {
        sign: u8,
        from: usize,
        to: usize,
    },
    A {
        sign: u8,
        from: usize,
        to: usize,
        four: u8,
        six: u8,
    },
    Mx {
        sign: u8,
        from: usize,
        to: usize,
        four: u8,
        six: u8,
    },
    Ptr {
        sign: u8,
        from: usize,
        to: usize,
    },
    Network {
        sign: u8,
        from: usize,
        to: usize,
        address: Address,
        length: u8,
    },
    Exists {
        sign: u8,
        from: usize,
        to: usize,
    },
    Redirect {
        from: usize,
        to: usize,
    },
    Explanation {
        from: usize,
        to: usize,
    },
    Unknown {
        name: usize,
        to: usize,
    },
}

impl Term {
    // A mechanism's sign; a modifier has none.
    pub fn sign(self) -> Option<u8>
        ensures { result ≡ sign_of self }
    {
        match self {
            Term::All { sign } => Some(sign),
            Term::Include { sign, .. } => Some(sign),
            Term::A { sign, .. } => Some(sign),
            Term::Mx { sign, .. } => Some(sign),
            Term::Ptr { sign, .. } => Some(sign),
            Term::Network { sign, .. } => Some(sign),
            Term::Exists { sign, .. } => Some(sign),
            Term::Redirect { .. } => None,
            Term::Explanation { .. } => None,
            Term::Unknown { .. } => None,
        }
    }
}

// Why a record or a term is refused.
#[derive(Clone, Copy, PartialEq, Eq)]
pub enum Reason {
    TooLong,
    NoVersion,
    Outside,
    Repeated,
    Beyond,
}

impl Reason {
    // The refusal's number.
    pub fn number(self) -> u8
        ensures { result ≡ number_of self }
    {
        match self {
            Reason::TooLong => 30,
            Reason::NoVersion => 31,
            Reason::Outside => 32,
            Reason::Repeated => 33,
            Reason::Beyond => 34,
        }
    }
}

// A refusal with its place.
#[derive(Clone, Copy)]
pub struct Refusal {
    pub reason: Reason,
    pub at: usize,
}

// A term that was read, with its first byte's place and the next place.
#[derive(Clone, Copy)]
pub struct ReadTerm {
    pub at: usize,
    pub next: usize,
    pub term: Term,
}

// A longer text is refused with 30.
pub const MOST_BYTES: usize = 4096;

// Where the terms of a record begin: just after its version.
pub const AFTER_VERSION: usize = 6;

// The term at a place where no space stands, or the end.
fn term_from(s: &[u8], at: usize) -> Result<Option<ReadTerm>, Refusal>
    requires { at ≤ length s.now }
    ensures { result ≡ term_from s.now at }
{
    if at == s.len() {
        return Ok(None);
    }
    let next = bytes::run_end(s, at, Class::NotSpace);
    let Some(term) = read_token(&s[at..next]) else {
        return Err(Refusal {
            reason: Reason::Outside,
            at,
        });
    };
    Ok(Some(ReadTerm { at, next, term }))
}

// Reads one term from a place on as read_term does, but a run outside the grammar is refused at its first byte, which costs nothing to find.
pub fn next_term(s: &[u8], at: usize) -> Result<Option<ReadTerm>, Refusal>
    ensures { result ≡ read_term s.now at }
{
    if MOST_BYTES < s.len() {
        return Err(Refusal {
            reason: Reason::TooLong,
            at: 0,
        });
    }
    if s.len() < at {
        return Err(Refusal {
            reason: Reason::Beyond,
            at,
        });
    }
    term_from(s, bytes::run_end(s, at, Class::Space))
}

// A refusal with the place that is answered: of a run outside the grammar that just after the longest beginning with which some term begins.
fn point(s: &[u8], refusal: Refusal) -> Refusal
    requires { refusal.reason ≡ Reason.Outside → length s.now ≤ most_bytes }
    ensures { result ≡ point_refusal s.now refusal }
{
    let Refusal { reason, at } = refusal;
    match reason {
        Reason::Outside => {
            let end = bytes::run_end(s, at, Class::NotSpace);
            let at = at + beginnings::longest_beginning(bytes::part(s, at, end));
            Refusal { reason, at }
        }
        _ => refusal,
    }
}

// Reads one term from a place on: a refusal, the end, or the term with the next place. A run outside the grammar is refused just after the longest
// beginning with which some term begins.
pub fn read_term(s: &[u8], at: usize) -> Result<Option<ReadTerm>, Refusal>
    ensures value { result ≡ pointed_term s.now at }
    ensures reads_term { ReadsTerm s.now at result }
{
    match next_term(s, at) {
        Ok(read) => Ok(read),
        Err(refusal) => Err(point(s, refusal)),
    }
}

// The value of an unknown modifier whose name ends at a place.
fn value_part(w: &[u8], name: usize, to: usize) -> &[u8]
    ensures { result.now ≡ part w.now (name + 1) to }
{
    if name < w.len() {
        return bytes::part(w, name + 1, to);
    }
    bytes::part(w, w.len(), w.len())
}

// The argument of a term that begins at a place, as that part of the record; for a term without one the empty part at the term's end.
pub fn argument(s: &[u8], at: usize, next: usize, term: Term) -> &[u8]
    ensures { ReadsArgument s.now at next term result.now }
{
    let w = bytes::part(s, at, next);
    match term {
        Term::All { .. } => bytes::part(w, w.len(), w.len()),
        Term::Include { from, to, .. } => bytes::part(w, from, to),
        Term::A { from, to, .. } => bytes::part(w, from, to),
        Term::Mx { from, to, .. } => bytes::part(w, from, to),
        Term::Ptr { from, to, .. } => bytes::part(w, from, to),
        Term::Network { from, to, .. } => bytes::part(w, from, to),
        Term::Exists { from, to, .. } => bytes::part(w, from, to),
        Term::Redirect { from, to } => bytes::part(w, from, to),
        Term::Explanation { from, to } => bytes::part(w, from, to),
        Term::Unknown { name, to } => value_part(w, name, to),
    }
}

// Whether the version section stands at the front.
pub fn has_version(s: &[u8]) -> bool
    ensures { result ≡ has_version s.now }
{
    words::equal_word(bytes::part(s, 0, AFTER_VERSION), b"v=spf1")
        && (s.len() == AFTER_VERSION || bytes::peek(s, AFTER_VERSION) == 32)
}

// Reads a record: a refusal with its place, of a term outside the grammar and a repeated modifier that which begins first; or accepted with the place
// just after the version. The answer is the same for every client.
pub fn read_record(s: &[u8]) -> Result<usize, Refusal>
    ensures value { result ≡ pointed_record s.now }
    ensures reads_record { ReadsRecord s.now result }
{
    match opening::open_record(s, Address::IPv4(0)) {
        Ok(_) => Ok(AFTER_VERSION),
        Err(refusal) => Err(point(s, refusal)),
    }
}
