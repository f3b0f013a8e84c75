// One term of a record: a run of non-spaces.
ghost use Rattle.std.specs.Prelude.{◌≡◌, ◌≤◌, ◌<◌, ◌&&◌, eqb, length};
ghost use Rattle.records.specs.Grammar.{is_qualifier};
ghost use Rattle.records.specs.Reader.{later_kind, kind_of, spec_at, cut_of, hosts_cut, hosts_at, network_term, ip4_of, ip6_of, mechanism_by, sign_by, name_by, modifier_of, token_of};

use crate::Term;
use address::Address;
use macros::Form;
use networks::{Front, Lengths};
use text::bytes::Class;
use text::spans::Span;
use text::{bytes, words};

// Which mechanism a name is.
#[derive(Clone, Copy)]
pub enum Kind {
    All,
    Include,
    A,
    Mx,
    Ptr,
    Ip4,
    Ip6,
    Exists,
}

// The domain-spec and the prefix lengths of an `a` or `mx` term.
#[derive(Clone, Copy)]
pub struct Hosts {
    pub domain: Span,
    pub lengths: Lengths,
}

// Whether a byte is a sign.
fn is_qualifier(b: u8) -> bool
    ensures { result ≡ is_qualifier b }
{
    matches!(b, b'+' | b'-' | b'?' | b'~')
}

// Which mechanism a name is that is none of the first five.
fn later_kind(name: &[u8]) -> Option<Kind>
    ensures { result ≡ later_kind name.now }
{
    if words::equal_word(name, b"ip4") {
        return Some(Kind::Ip4);
    }
    if words::equal_word(name, b"ip6") {
        return Some(Kind::Ip6);
    }
    if words::equal_word(name, b"exists") {
        return Some(Kind::Exists);
    }
    None
}

// Which mechanism a name is, in either case of its letters.
// One test after another: a `match` can't compare in either case, and a table would need a loop over it.
fn kind_of(name: &[u8]) -> Option<Kind>
    ensures { result ≡ kind_of name.now }
{
    if words::equal_word(name, b"all") {
        return Some(Kind::All);
    }
    if words::equal_word(name, b"include") {
        return Some(Kind::Include);
    }
    if words::equal_word(name, b"a") {
        return Some(Kind::A);
    }
    if words::equal_word(name, b"mx") {
        return Some(Kind::Mx);
    }
    if words::equal_word(name, b"ptr") {
        return Some(Kind::Ptr);
    }
    later_kind(name)
}

// [ ":" domain-spec ] from a place up to another: where the domain-spec begins, if there is one.
fn read_spec(w: &[u8], k: usize, to: usize) -> Option<Option<usize>>
    requires { (k ≤ to) × (to ≤ length w.now) }
    ensures { result ≡ spec_at w.now k to }
{
    if k == to {
        return Some(None);
    }
    if bytes::peek(w, k) == 58 {
        let from = k + 1;
        return macros::read_macro_string(Form::DomainSpec, &w[from..to]).then_some(Some(from));
    }
    None
}

// Where the prefix lengths of an `a` or `mx` begin, after its name.
fn lengths_start(t: &[u8]) -> usize
    ensures { result ≡ cut_of t.now }
{
    bytes::run_end(t, bytes::trailing_start(t, Class::LengthByte), Class::Digit)
}

// [ ":" domain-spec ] up to the cut, and the lengths from there on.
fn read_hosts_cut(w: &[u8], k: usize, cut: usize) -> Option<Hosts>
    requires { (k ≤ cut) × (cut ≤ length w.now) }
    ensures { result ≡ hosts_cut w.now k cut }
{
    let lengths = networks::read_dual(&w[cut..])?;
    let from = read_spec(w, k, cut)?.unwrap_or(cut);
    Some(Hosts {
        domain: Span { from, to: cut },
        lengths,
    })
}

// [ ":" domain-spec ] [ dual-cidr-length ], with the name up to k.
fn read_hosts(w: &[u8], k: usize) -> Option<Hosts>
    requires { k ≤ length w.now }
    ensures { result ≡ hosts_at w.now k }
{
    let cut = k + lengths_start(&w[k..]);
    read_hosts_cut(w, k, cut)
}

// The term of a network and its length, as they were read; the network's text stands from one place up to another.
fn network_term(
    sign: u8,
    from: usize,
    to: usize,
    network: Option<Address>,
    size: Option<u8>,
) -> Option<Term>
    ensures { result ≡ network_term sign from to network size }
{
    let address = network?;
    let length = size?;
    Some(Term::Network {
        sign,
        from,
        to,
        address,
        length,
    })
}

// A network as far as its octets go, and its length from there on.
fn read_ip4(sign: u8, k: usize, w: &[u8]) -> Option<Term>
    ensures { result ≡ ip4_of sign k w.now }
{
    if bytes::peek(w, k) == 58 {
        let from = k + 1;
        let Front { value, end } = networks::read_front(w, from)?;
        let length = networks::read_length4(&w[end..]);
        return network_term(sign, from, end, Some(Address::IPv4(value)), length);
    }
    None
}

// A network up to the first slash, and its length from there on.
fn read_ip6(sign: u8, k: usize, w: &[u8]) -> Option<Term>
    ensures { result ≡ ip6_of sign k w.now }
{
    if bytes::peek(w, k) == 58 {
        let from = k + 1;
        let slash = bytes::run_end(w, from, Class::NotSlash);
        let network = networks::read_ip6(&w[from..slash]);
        let length = networks::read_length6(&w[slash..]);
        return network_term(sign, from, slash, network, length);
    }
    None
}

// A mechanism of a kind, with its name up to k.
fn read_mechanism_by(kind: Kind, sign: u8, k: usize, w: &[u8]) -> Option<Term>
    requires { k ≤ length w.now }
    ensures { result ≡ mechanism_by (Some kind) sign k w.now }
{
    let to = w.len();
    match kind {
        Kind::All => (k == to).then_some(Term::All { sign }),
        Kind::Include => {
            let from = read_spec(w, k, to)??;
            Some(Term::Include { sign, from, to })
        }
        Kind::A => {
            let Hosts { domain, lengths } = read_hosts(w, k)?;
            let Span { from, to } = domain;
            let Lengths { four, six } = lengths;
            Some(Term::A {
                sign,
                from,
                to,
                four,
                six,
            })
        }
        Kind::Mx => {
            let Hosts { domain, lengths } = read_hosts(w, k)?;
            let Span { from, to } = domain;
            let Lengths { four, six } = lengths;
            Some(Term::Mx {
                sign,
                from,
                to,
                four,
                six,
            })
        }
        Kind::Ptr => {
            let from = read_spec(w, k, to)?.unwrap_or(to);
            Some(Term::Ptr { sign, from, to })
        }
        Kind::Ip4 => read_ip4(sign, k, w),
        Kind::Ip6 => read_ip6(sign, k, w),
        Kind::Exists => {
            let from = read_spec(w, k, to)??;
            Some(Term::Exists { sign, from, to })
        }
    }
}

// A modifier, with its name up to k, where `=` stands.
fn read_modifier(k: usize, w: &[u8]) -> Option<Term>
    requires { k < length w.now }
    ensures { result ≡ modifier_of k w.now }
{
    let to = w.len();
    let name = bytes::part(w, 0, k);
    let value = bytes::part(w, k + 1, to);
    if bytes::is_in(Class::Alpha, bytes::peek(w, 0)) {
        if words::equal_word(name, b"redirect") {
            return macros::read_macro_string(Form::DomainSpec, value).then_some(Term::Redirect {
                from: k + 1,
                to,
            });
        }
        if words::equal_word(name, b"exp") {
            return macros::read_macro_string(Form::DomainSpec, value).then_some(Term::Explanation {
                from: k + 1,
                to,
            });
        }
        return macros::read_macro_string(Form::ModifierValue, value).then_some(Term::Unknown {
            name: k,
            to,
        });
    }
    None
}

// The sign of a term, by its first byte.
fn sign_by(first: u8) -> u8
    ensures { result ≡ sign_by first }
{
    if is_qualifier(first) { first } else { 43 }
}

// Where the name of a term begins, by its first byte.
fn name_by(first: u8) -> usize
    ensures { result ≡ name_by first }
{
    if is_qualifier(first) { 1 } else { 0 }
}

// Whether a term is a modifier, by where its name begins and the byte after its name.
fn is_modifier(i: usize, b: u8) -> bool
    ensures { result ≡ (eqb i 0 && eqb b 61) }
{
    i == 0 && b == 61
}

// A run of non-spaces as a term.
pub fn read_token(w: &[u8]) -> Option<Term>
    ensures { result ≡ token_of w.now }
{
    let first = bytes::peek(w, 0);
    let i = name_by(first);
    let k = bytes::run_end(w, i, Class::NameByte);
    if is_modifier(i, bytes::peek(w, k)) {
        return read_modifier(k, w);
    }
    read_mechanism_by(kind_of(&w[i..k])?, sign_by(first), k, w)
}
