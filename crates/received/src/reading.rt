// A line read back: where its parts stand, if it is a line; and it is one if writing what was read gives it again.
ghost use Rattle.std.specs.Prelude.{◌≡◌};
ghost use Rattle.text.specs.Runs.{run_end};
ghost use Rattle.received.specs.Quoting.{unescaped};
ghost use Rattle.received.specs.Answers.{given_of, most_line};
ghost use Rattle.received.specs.States.{is_plain};
ghost use Rattle.received.specs.Texts.{outcome};
ghost use Rattle.received.specs.Reader.{number_of, identity_of, closing_at, after, part_at, part_after, parts_of, bytes_of, is_written, is_line, Held};

use crate::{
    Checked, Identity, MOST_CLIENT, MOST_HOST, MOST_LINE, MOST_VALUE, Parts, clients, lines,
    quoting, write_line,
};
use text::bytes::Class;
use text::spans::Span;
use text::writing::Writer;
use text::{bytes, words};

// A byte of dot-atom-text.
fn is_plain(b: u8) -> bool
    ensures { result ≡ is_plain b }
{
    quoting::is_atext(b) || b == b'.'
}

// The end of a value that stands without quotes.
fn plain_end(s: &[u8], i: usize) -> usize
    ensures { result ≡ run_end is_plain s.now i }
{
    bytes::run_end_by(s, i, |b| is_plain(b))
}

// The place of the quote that ends a value.
fn closing_at(s: &[u8], i: usize) -> usize
    ensures { result ≡ closing_at s.now i }
{
    // By places and not `for`: a step takes one byte or two.
    let mut q = i;
    while q < s.len() {
        if s[q] == b'"' {
            return q;
        }
        q = quoting::place_of(s, q) + 1;
    }
    q
}

// The place after a part and its quote. No sum of places needs a bound: no line has the largest place.
fn after(s: &[u8], to: usize) -> usize
    ensures { result ≡ after s.now to }
{
    if bytes::peek(s, to) == b'"' {
        to.saturating_add(1)
    } else {
        to
    }
}

// The part that begins at a place.
fn part_at(s: &[u8], p: usize) -> Span
    ensures { result ≡ part_at s.now p }
{
    if bytes::peek(s, p) == b'"' {
        let from = p.saturating_add(1);
        Span {
            from,
            to: closing_at(s, from),
        }
    } else {
        Span {
            from: p,
            to: plain_end(s, p),
        }
    }
}

// The part that stands n bytes after another.
fn part_after(s: &[u8], to: usize, n: usize) -> Span
    ensures { result ≡ part_after s.now to n }
{
    part_at(s, after(s, to).saturating_add(n))
}

// The number of a word, 7 for any other.
pub fn number_of(w: &[u8]) -> u8
    ensures { result ≡ number_of w.now }
{
    for n in 0..7 {
        if words::equal(w, lines::word_of(n)) {
            return n;
        }
    }
    7
}

// The identity of its word, and of any other; writing tells them apart.
fn identity_of(w: &[u8]) -> Identity
    ensures { result ≡ identity_of w.now }
{
    if words::equal(w, b"mailfrom") {
        Identity::MailFrom
    } else {
        Identity::Helo
    }
}

// Where the parts stand, if this is a line: behind the 14 bytes of `Received-SPF: ` and the word, each as many bytes on as its key has, from the 10 of
// ` receiver=` to the 11 of `; identity=`.
pub fn parts_of(s: &[u8]) -> Parts
    ensures { result ≡ parts_of s.now }
{
    let end = bytes::run_end(s, 14, Class::NotSpace);
    let result = number_of(bytes::part(s, 14, end));
    let receiver = part_after(s, end, 10);
    let client = part_after(s, receiver.to, 12);
    let sender = part_after(s, client.to, 16);
    let helo = part_after(s, sender.to, 7);
    let identity = part_after(s, helo.to, 11);
    Parts {
        result,
        receiver,
        client,
        sender,
        helo,
        identity,
    }
}

// A part's value, as far as a buffer goes.
fn value_of(s: &[u8], p: Span, out: &mut [u8]) -> usize
    ensures { Held (unescaped (bytes_of s.now p)) out.old out.new result }
{
    let room = out.len();
    let mut w = Writer::new(out);
    quoting::put_unescaped(p.of(s), &mut w);
    w.at.min(room)
}

// Whether writing gives the line.
fn is_written(s: &[u8], res: u8, checked: &Checked) -> bool
    ensures { result ≡ is_written (outcome (given_of res checked.now) most_line) s.now }
{
    let mut again = [0u8; MOST_LINE];
    match write_line(res, checked, &mut again) {
        Ok(n) => words::equal(bytes::part(&again, 0, n), s),
        Err(_) => false,
    }
}

// Whether writing what the parts give gives the line.
pub fn is_line(s: &[u8], f: Parts) -> bool
    ensures { result ≡ is_line s.now f }
{
    let mut client = [0u8; MOST_CLIENT];
    let c = value_of(s, f.client, &mut client);
    let mut sender = [0u8; MOST_VALUE];
    let e = value_of(s, f.sender, &mut sender);
    let mut helo = [0u8; MOST_HOST];
    let h = value_of(s, f.helo, &mut helo);
    let mut receiver = [0u8; MOST_HOST];
    let r = value_of(s, f.receiver, &mut receiver);
    let checked = Checked {
        client: clients::address_of(bytes::part(&client, 0, c)),
        sender: bytes::part(&sender, 0, e),
        helo: bytes::part(&helo, 0, h),
        receiver: bytes::part(&receiver, 0, r),
        identity: identity_of(f.identity.of(s)),
    };
    is_written(s, f.result, &checked)
}
