// A record read whole, and for a client: its leading terms are tried that need no lookup, so that they needn't be read again.
ghost use Rattle.std.specs.Prelude.{◌≡◌, ◌≤◌, length};
ghost use Rattle.records.specs.Opening.{unaided, led_on, modifier_at, modifiers_of, is_met, repeated_by, NoteFits, noted, Opened, OpeningOf};

use crate::{AFTER_VERSION, MOST_BYTES, ReadTerm, Reason, Refusal, Term, has_version, next_term};
use address::Address;
use text::spans::Span;

// What a term says of a client without a lookup: that it matches, with its sign; that it doesn't; or nothing.
#[derive(Clone, Copy)]
pub enum Unaided {
    Matches(u8),
    Passes,
    Asks,
}

// What the leading terms of a record say to a client: the sign of the first term that doesn't pass, if that term matches without a lookup; otherwise
// the place after the leading terms that pass.
#[derive(Clone, Copy)]
pub enum Opening {
    Matched { sign: u8 },
    Open { at: usize },
}

// Where the arguments of a record's redirect and exp stand.
#[derive(Clone, Copy)]
pub struct Modifiers {
    pub redirect: Option<Span>,
    pub exp: Option<Span>,
}

// Where those of the redirect and the exp that were met stand, with both places 0 where none was met: what the walk over the terms carries, numbers
// alone.
#[derive(Clone, Copy)]
pub struct Met {
    pub redirect: Span,
    pub exp: Span,
}

// What reading an accepted record for a client answers.
#[derive(Clone, Copy)]
pub struct Reading {
    pub opening: Opening,
    pub modifiers: Modifiers,
}

// A network of the client matches, and so does `all`; any other network and a modifier pass.
fn try_unaided(client: Address, term: Term) -> Unaided
    ensures { result ≡ unaided client term }
{
    match term {
        Term::All { sign } => Unaided::Matches(sign),
        Term::Network {
            sign,
            address,
            length,
            ..
        } => {
            if address::matches(client, address, length as usize) {
                return Unaided::Matches(sign);
            }
            Unaided::Passes
        }
        Term::Redirect { .. } => Unaided::Passes,
        Term::Explanation { .. } => Unaided::Passes,
        Term::Unknown { .. } => Unaided::Passes,
        Term::Include { .. } => Unaided::Asks,
        Term::A { .. } => Unaided::Asks,
        Term::Mx { .. } => Unaided::Asks,
        Term::Ptr { .. } => Unaided::Asks,
        Term::Exists { .. } => Unaided::Asks,
    }
}

// The opening with one more term, read from a place to the next: it counts only where all terms before it pass.
fn lead_on(opening: Opening, client: Address, at: usize, next: usize, term: Term) -> Opening
    ensures { result ≡ led_on client opening at next term }
{
    let Opening::Open { at: start } = opening else {
        return opening;
    };
    if start == at {
        return match try_unaided(client, term) {
            Unaided::Matches(sign) => Opening::Matched { sign },
            Unaided::Passes => Opening::Open { at: next },
            Unaided::Asks => Opening::Open { at: start },
        };
    }
    Opening::Open { at: start }
}

// A modifier by its place.
fn modifier_at(place: Span) -> Option<Span>
    ensures { result ≡ modifier_at place }
{
    if place.to == 0 {
        return None;
    }
    Some(place)
}

// The modifiers that were met.
fn modifiers_of(met: Met) -> Modifiers
    ensures { result ≡ modifiers_of met }
{
    Modifiers {
        redirect: modifier_at(met.redirect),
        exp: modifier_at(met.exp),
    }
}

// Whether a modifier has been met.
fn is_met(place: Span) -> bool
    ensures { result ≡ is_met (modifier_at place) }
{
    place.to != 0
}

// Whether a term is a second redirect or a second exp, by those that have stood before it.
fn repeats(met: Met, term: Term) -> bool
    ensures { result ≡ repeated_by (modifiers_of met) term }
{
    match term {
        Term::Redirect { .. } => is_met(met.redirect),
        Term::Explanation { .. } => is_met(met.exp),
        _ => false,
    }
}

// The modifiers met with one more term, which begins at a place.
fn note(met: Met, place: usize, term: Term) -> Met
    requires { NoteFits place term }
    ensures { modifiers_of result ≡ noted (modifiers_of met) place term }
{
    let redirect = met.redirect;
    let exp = met.exp;
    match term {
        Term::Redirect { from, to } => Met {
            redirect: Span {
                from: place + from,
                to: place + to,
            },
            exp,
        },
        Term::Explanation { from, to } => Met {
            redirect,
            exp: Span {
                from: place + from,
                to: place + to,
            },
        },
        _ => met,
    }
}

// The terms of a record, from a place on: refused where a term is outside the grammar or a modifier is repeated, whichever is earlier, or accepted.
fn check_terms(s: &[u8], first: usize, client: Address) -> Result<Reading, Refusal>
    requires { first ≤ length s.now }
    ensures { Opened client s.now first result }
{
    let mut at = first;
    let mut met = Met {
        redirect: Span { from: 0, to: 0 },
        exp: Span { from: 0, to: 0 },
    };
    let mut opening = Opening::Open { at: first };
    loop {
        let Some(
            ReadTerm {
                at: place,
                next,
                term,
            },
        ) = next_term(s, at)?
        else {
            return Ok(Reading {
                opening,
                modifiers: modifiers_of(met),
            });
        };
        if repeats(met, term) {
            return Err(Refusal {
                reason: Reason::Repeated,
                at: place,
            });
        }
        met = note(met, place, term);
        opening = lead_on(opening, client, at, next, term);
        at = next;
    }
}

// Reads a record for a client: refused as read_record has it, with a term outside the grammar at its first byte, or accepted, with the places of its
// modifiers.
pub fn open_record(s: &[u8], client: Address) -> Result<Reading, Refusal>
    ensures { OpeningOf client s.now result }
{
    if MOST_BYTES < s.len() {
        return Err(Refusal {
            reason: Reason::TooLong,
            at: 0,
        });
    }
    if has_version(s) {
        return check_terms(s, AFTER_VERSION, client);
    }
    Err(Refusal {
        reason: Reason::NoVersion,
        at: 0,
    })
}
