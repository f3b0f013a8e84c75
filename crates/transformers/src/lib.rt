// A macro's transformers: a value split at delimiters, its parts reversed, kept and joined by dots, and its bytes escaped; written by a
// writer.
#![tactic(auto)]

ghost use Rattle.std.specs.Prelude.{◌<◌, ◌≤◌, ◌+◌, ◌-◌, ◌*◌, min, ◌≡◌, reverse, cond, not, eqb, length, drop};
ghost use Rattle.text.specs.Decimal.{decimal};
ghost use Rattle.text.specs.Lists.{split, join, rightmost};
ghost use Rattle.text.specs.Runs.{run};
ghost use Rattle.text.specs.Writing.{Writes};
ghost use Rattle.transformers.specs.Transform.{is_listed, is_unreserved, hex_digit, escaped_byte, escaped, transformed};

use text::bytes::Class;
use text::writing::Writer;
use text::{bytes, words};

// How a value is written: the listed delimiters, and whether its bytes are escaped.
#[derive(Clone, Copy)]
struct Form<'a> {
    delimiters: &'a [u8],
    escape: bool,
}

impl<'a> Form<'a> {
    // Whether b is one of the listed delimiters; the dot where none is listed.
    #[tactic(auto, using(text::proofs::Laws::Tests::ways), unfolding(crate::specs::Transform::is_listed))]
    fn is_listed(&self, b: u8) -> bool
        ensures { result ≡ is_listed self.now.delimiters.now b }
    {
        if self.delimiters.is_empty() {
            b == b'.'
        } else {
            words::contains(self.delimiters, b)
        }
    }

    // Writes one byte, escaped where that is asked.
    #[tactic(auto, unfolding(crate::specs::Transform::escaped_byte))]
    fn put_escaped(&self, b: u8, out: &mut Writer)
        ensures { Writes (escaped_byte self.now.escape b) out.old out.new }
    {
        if self.escape && !is_unreserved(b) {
            out.put(b'%');
            out.put(hex_digit(b / 16));
            out.put(hex_digit(b % 16));
        } else {
            out.put(b);
        }
    }

    // A byte as it stands between joined parts: a delimiter as a dot.
    fn dotted(&self, b: u8) -> u8
        ensures { result ≡ cond (is_listed self.now.delimiters.now b) 46 b }
    {
        if self.is_listed(b) { b'.' } else { b }
    }

    // Writes all parts in their order. Where nothing is escaped and only dots part a text, it is written as it stands.
    fn put_parts(&self, s: &[u8], out: &mut Writer)
        ensures { Writes (escaped self.now.escape (join (split (is_listed self.now.delimiters.now) s.now))) out.old out.new }
    {
        // Read so that its bound is known, which an empty text needs.
        let _start = out.at;
        if !self.escape && self.delimiters.is_empty() {
            out.put_all(s);
            return;
        }
        let form = *self;
        for b in s {
            form.put_escaped(form.dotted(*b), out);
        }
    }

    // Writes the parts in reverse, the right-most n of them.
    fn put_reversed(&self, s: &[u8], n: usize, out: &mut Writer)
        requires { 0 < n }
        ensures { Writes (escaped self.now.escape (join (rightmost n (reverse (split (is_listed self.now.delimiters.now) s.now))))) out.old out.new }
    {
        match s.iter().position(|b| self.is_listed(*b)) {
            None => self.put_parts(s, out),
            Some(end) if n == 1 => self.put_parts(&s[..end], out),
            Some(end) => {
                self.put_reversed(&s[end + 1..], n - 1, out);
                out.put(b'.');
                self.put_parts(&s[..end], out);
            }
        }
    }

    // Where the right-most n parts start. A text of fewer bytes than n has no more than n parts.
    fn rightmost_start(&self, s: &[u8], n: usize) -> usize
        requires { 0 < n }
        ensures upper_bound { result ≤ length s.now }
        ensures parts { split (is_listed self.now.delimiters.now) (drop result s.now) ≡ rightmost n (split (is_listed self.now.delimiters.now) s.now) }
    {
        if s.len() < n {
            return 0;
        }
        let mut left = n;
        for i in (0..s.len()).rev() {
            if self.is_listed(s[i]) {
                if left == 1 {
                    return i + 1;
                }
                left -= 1;
            }
        }
        0
    }
}

// Letters, digits and `-._~`.
fn is_unreserved(b: u8) -> bool
    ensures { result ≡ is_unreserved b }
{
    bytes::is_in(Class::Alphanumeric, b) || words::contains(b"-._~", b)
}

// An upper-case hex digit.
#[tactic(auto, using(text::proofs::Laws::Tests::ways), unfolding(crate::specs::Transform::hex_digit))]
fn hex_digit(n: u8) -> u8
    requires { n < 16 }
    ensures { result ≡ hex_digit n }
{
    if n < 10 { b'0' + n } else { b'A' - 10 + n }
}

// How many parts the digits keep: their value, up to the largest usize; without digits the largest.
fn keep_count(digits: &[u8]) -> usize
    ensures { result ≡ cond (eqb (length digits.now) 0) 18446744073709551615 (min (decimal digits.now) 18446744073709551615) }
{
    if digits.is_empty() {
        return usize::MAX;
    }
    let mut n: usize = 0;
    for d in digits {
        n = n
            .saturating_mul(10)
            .saturating_add(usize::from(d.saturating_sub(b'0')));
    }
    n
}

// A value through the transformers: its digits, whether r stands, its delimiters, and whether it is escaped.
pub fn transform(
    value: &[u8],
    digits: &[u8],
    reversed: bool,
    delimiters: &[u8],
    escape: bool,
    out: &mut Writer,
)
    ensures { Writes (transformed digits.now reversed delimiters.now escape value.now) out.old out.new }
{
    // Read so that its bound is known, which an empty text needs.
    let _start = out.at;
    let form = Form { delimiters, escape };
    let n = keep_count(digits);
    if n == 0 {
        return;
    }
    if reversed {
        form.put_reversed(value, n, out);
    } else {
        form.put_parts(&value[form.rightmost_start(value, n)..], out);
    }
}
