// The text of a macro string, piece after piece, by a writer.
ghost use Rattle.std.specs.Prelude.{◌≡◌};
ghost use Rattle.text.specs.Bytes.{lower};
ghost use Rattle.text.specs.Writing.{Writes};
ghost use Rattle.macros.specs.Grammar.{expand};
ghost use Rattle.macros.specs.Reader.{macro_of, pieces};
ghost use Rattle.macros.specs.Expansion.{values_of, letter_value, escape_text, piece_text, text_of};

use crate::pieces::{Braces, Found};
use crate::{Form, pieces};
use text::bytes;
use text::bytes::Class;
use text::writing::Writer;

// The value of each letter.
#[derive(Clone, Copy)]
pub struct Letters<'a> {
    pub s: &'a [u8],
    pub l: &'a [u8],
    pub o: &'a [u8],
    pub d: &'a [u8],
    pub i: &'a [u8],
    pub p: &'a [u8],
    pub v: &'a [u8],
    pub h: &'a [u8],
    pub c: &'a [u8],
    pub r: &'a [u8],
    pub t: &'a [u8],
}

impl<'a> Letters<'a> {
    // The value of a letter in either case; a letter that is none of the others counts as t.
    fn value(&self, letter: u8) -> &'a [u8]
        ensures { result.now ≡ letter_value (values_of self.now) (lower letter) }
    {
        match bytes::to_lower(letter) {
            b's' => self.s,
            b'l' => self.l,
            b'o' => self.o,
            b'd' => self.d,
            b'i' => self.i,
            b'p' => self.p,
            b'v' => self.v,
            b'h' => self.h,
            b'c' => self.c,
            b'r' => self.r,
            _ => self.t,
        }
    }
}

// Writes the text of `%%`, `%_` or `%-`.
fn put_escape(b: u8, out: &mut Writer)
    ensures { Writes (escape_text b) out.old out.new }
{
    match b {
        b'%' => out.put(b'%'),
        b'_' => out.put(b' '),
        _ => out.put_all(b"%20"),
    }
}

// Writes the text of the macro in braces at the front of a text: its letter's value through its transformers.
fn put_macro(text: &[u8], m: Braces, letters: &Letters, out: &mut Writer)
    ensures { Writes (piece_text (values_of letters.now) (expand (macro_of text.now m))) out.old out.new }
{
    let digits = bytes::part(text, 3, m.digits);
    let escape = bytes::is_in(Class::Upper, m.letter);
    transformers::transform(
        letters.value(m.letter),
        digits,
        m.reversed,
        m.delimiters.of(text),
        escape,
        out,
    );
}

// Writes the text of the pieces up to the end or to the first that is none.
pub fn put_text(form: Form, text: &[u8], letters: &Letters, out: &mut Writer)
    ensures { Writes (text_of (values_of letters.now) (pieces form text.now).list) out.old out.new }
{
    // Read so that its bound is known, which a text without pieces needs.
    let _start = out.at;
    let mut rest = text;
    while let Some(found) = pieces::read_piece(form, rest) {
        match found {
            Found::Literal(b) => {
                out.put(b);
                rest = &rest[1..];
            }
            Found::Escape(b) => {
                put_escape(b, out);
                rest = &rest[2..];
            }
            Found::Expand(m) => {
                put_macro(rest, m, letters, out);
                rest = &rest[m.delimiters.to + 1..];
            }
        }
    }
}
