// The pieces of a macro string, one after the other from the front.
ghost use Rattle.std.specs.Prelude.{◌≡◌};
ghost use Rattle.macros.specs.Grammar.{is_letter, is_part_count};
ghost use Rattle.macros.specs.Reader.{is_literal, is_escape, delimiters_at, reversal_at, digits_at, braces_of, piece_of};

use crate::Form;
use text::bytes::Class;
use text::spans::Span;
use text::{bytes, decimal, words};

// A macro in braces at the front of a text: its letter; the end of its digits, which begin at 3; whether r stands; its delimiters, up to the
// place of the closing brace.
#[derive(Clone, Copy)]
pub struct Braces {
    pub letter: u8,
    pub digits: usize,
    pub reversed: bool,
    pub delimiters: Span,
}

// A piece at the front of a text.
#[derive(Clone, Copy)]
pub enum Found {
    Literal(u8),
    Escape(u8),
    Expand(Braces),
}

// Whether a byte is a macro letter of the form, in either case.
fn is_letter(form: Form, b: u8) -> bool
    ensures { result ≡ is_letter form b }
{
    match form {
        Form::DomainSpec => words::contains(b"slodipvh", bytes::to_lower(b)),
        Form::ModifierValue | Form::Explanation => {
            words::contains(b"slodipvhcrt", bytes::to_lower(b))
        }
    }
}

// Whether a byte stands for itself; in explanation text spaces do too.
fn is_literal(form: Form, b: u8) -> bool
    ensures { result ≡ is_literal form b }
{
    match form {
        Form::DomainSpec | Form::ModifierValue => bytes::is_in(Class::MacroLiteral, b),
        Form::Explanation => bytes::is_in(Class::MacroLiteral, b) || b == b' ',
    }
}

// Whether a byte is the second one of `%%`, `%_` or `%-`.
fn is_escape(b: u8) -> bool
    ensures { result ≡ is_escape b }
{
    words::contains(b"%_-", b)
}

// Whether digits, of any number of places, are none or have a value above 0.
fn is_count(digits: &[u8]) -> bool
    ensures { result ≡ is_part_count digits.now }
{
    if !words::every(digits, Class::Digit) {
        return false;
    }
    if digits.is_empty() {
        return true;
    }
    match decimal::read_decimal(digits, u64::MAX) {
        Some(v) => 1 <= v,
        None => true,
    }
}

// The delimiters of a macro in braces from a place on, and the brace after them; d is the end of its digits.
fn read_delimiters(s: &[u8], d: usize, reversed: bool, from: usize) -> Option<Found>
    ensures { result ≡ delimiters_at s.now d reversed from }
{
    let to = bytes::run_end(s, from, Class::Delimiter);
    if bytes::peek(s, to) == b'}' {
        Some(Found::Expand(Braces {
            letter: bytes::peek(s, 2),
            digits: d,
            reversed,
            delimiters: Span { from, to },
        }))
    } else {
        None
    }
}

// Whether r follows the digits, and then the delimiters. Put into its caller, as `read_piece` is.
#[inline(always)]
fn read_reversal(s: &[u8], d: usize) -> Option<Found>
    ensures { result ≡ reversal_at s.now d }
{
    if bytes::to_lower(bytes::peek(s, d)) == b'r' {
        read_delimiters(s, d, true, d + 1)
    } else {
        read_delimiters(s, d, false, d)
    }
}

// The digits of a macro in braces, up to d. Put into its caller, as `read_piece` is.
#[inline(always)]
fn read_digits(s: &[u8], d: usize) -> Option<Found>
    ensures { result ≡ digits_at s.now d }
{
    if is_count(bytes::part(s, 3, d)) {
        read_reversal(s, d)
    } else {
        None
    }
}

// The macro in braces at the front. Put into its caller, as `read_piece` is.
#[inline(always)]
fn read_braces(form: Form, s: &[u8]) -> Option<Found>
    ensures { result ≡ braces_of form s.now }
{
    if is_letter(form, bytes::peek(s, 2)) {
        read_digits(s, bytes::run_end(s, 3, Class::Digit))
    } else {
        None
    }
}

// The piece at the front of a text; none at its end, and where what stands there is none. Put into its callers, so that the answer isn't built in memory for
// each byte.
#[inline(always)]
pub fn read_piece(form: Form, s: &[u8]) -> Option<Found>
    ensures { result ≡ piece_of form s.now }
{
    if s.is_empty() {
        return None;
    }
    let first = bytes::peek(s, 0);
    if first == b'%' {
        let second = bytes::peek(s, 1);
        if is_escape(second) {
            Some(Found::Escape(second))
        } else if second == b'{' {
            read_braces(form, s)
        } else {
            None
        }
    } else if is_literal(form, first) {
        Some(Found::Literal(first))
    } else {
        None
    }
}
